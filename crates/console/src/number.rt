// Numbers on the command line.
ghost use Rattle.std.specs.Prelude.{◌≡◌};
ghost use Rattle.console.specs.Number.{decimal_of};

// A number in decimal digits alone: leading zeros are fine, a sign is not.
pub fn decimal(text: &str) -> Option<usize>
    ensures { result ≡ decimal_of text.now }
{
    if text.starts_with('+') {
        return None;
    }
    text.parse::<usize>().ok()
}
