// The names of the generated problem.
ghost use Rattle.std.specs.Prelude.{◌≡◌, ◌+◌, ◌<◌};
ghost use Rattle.deck_definitions.specs.Transport as made;

// A digit as it is written.
fn digit(value: u32) -> u8
    requires { value < 10 }
    ensures { result ≡ 48 + value }
{
    b'0' + value as u8
}

// A number in three digits.
fn three_digits(number: u32) -> [u8; 3]
    requires { number < 1000 }
    ensures { result ≡ made.three_digits number }
{
    [
        digit(number / 100),
        digit(number / 10 % 10),
        digit(number % 10),
    ]
}

/// The name of a source.
pub fn source(number: u32) -> [u8; 4]
    requires { number < 1000 }
    ensures { result ≡ made.source number }
{
    let [hundreds, tens, ones] = three_digits(number);
    [b'S', hundreds, tens, ones]
}

/// The name of a destination.
pub fn destination(number: u32) -> [u8; 4]
    requires { number < 1000 }
    ensures { result ≡ made.destination number }
{
    let [hundreds, tens, ones] = three_digits(number);
    [b'D', hundreds, tens, ones]
}

/// The name of what is sent from a source to a destination.
pub fn route(from: u32, to: u32) -> [u8; 7]
    requires from { from < 1000 }
    requires to { to < 1000 }
    ensures { result ≡ made.route from to }
{
    let [f0, f1, f2] = three_digits(from);
    let [t0, t1, t2] = three_digits(to);
    [b'X', f0, f1, f2, t0, t1, t2]
}
