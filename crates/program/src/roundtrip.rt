// The theorems of the format, over every list of bytes.
ghost use Rattle.program.specs.Roundtrip.{OneReading, RoundTrip, FileRoundTrip};

// Reading leaves nothing open, and reading and writing undo each other.
pub fn format_stands() -> ()
    ensures one { OneReading }
    ensures back { RoundTrip }
    ensures files { FileRoundTrip }
{}
