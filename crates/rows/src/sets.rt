// Sets of numbers below 64, one bit for each member.
ghost use Rattle.std.specs.Prelude.{◌≡◌, ◌<◌};
ghost use Rattle.rows.specs.Sets.{has as has_member, with_member};

// Is k a member?
pub fn has(set: u64, k: usize) -> bool
    requires { k < 64 }
    ensures { result ≡ has_member set k }
{
    (set >> k) % 2 == 1
}

// The set with k in it.
pub fn with(set: u64, k: usize) -> u64
    requires { k < 64 }
    ensures { result ≡ with_member set k }
{
    set | (1 << k)
}
