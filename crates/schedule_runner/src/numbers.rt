// Numbers and counts.
ghost use Rattle.std.specs.Prelude.{◌≡◌, ◌<◌, ◌^◌, true};
ghost use Rattle.std.specs.List.{list_all};
ghost use Rattle.schedule_runner.specs.Reading.{is_digit, is_number, number_value, number_of, count_of};

fn all_digits(bytes: &[u8]) -> bool
    ensures { result ≡ list_all is_digit bytes.now }
{
    bytes.iter().all(|b| b'0' <= *b && *b <= b'9')
}

// Whether the bytes are a number that is small enough.
#[tactic(auto, unfolding(crate::specs::Reading::is_number))]
fn is_number(bytes: &[u8]) -> bool
    ensures { result ≡ is_number bytes.now }
{
    if !all_digits(bytes) {
        return false;
    }
    if bytes.is_empty() {
        return false;
    }
    if 18 < bytes.len() {
        return false;
    }
    if bytes[0] != b'0' {
        return true;
    }
    bytes.len() == 1
}

// The value of at most eighteen digits.
#[tactic(auto, unfolding(crate::specs::Reading::number_value))]
fn number_value(bytes: &[u8]) -> u64
    requires { is_number bytes.now ≡ true }
    ensures { result ≡ number_value bytes.now }
{
    let mut n = 0u64;
    for b in bytes {
        n = n * 10 + u64::from(*b - b'0');
    }
    n
}

/// The number that the bytes write.
#[tactic(auto, unfolding(crate::specs::Reading::number_of))]
pub fn number_of(bytes: &[u8]) -> Option<u64>
    ensures { result ≡ number_of bytes.now }
{
    if is_number(bytes) {
        Some(number_value(bytes))
    } else {
        None
    }
}

/// The number that the bytes write, if it is above 0.
#[tactic(auto, unfolding(crate::specs::Reading::count_of))]
pub fn count_of(bytes: &[u8]) -> Option<u64>
    ensures { result ≡ count_of bytes.now }
{
    let count = number_of(bytes)?;
    if count == 0 { None } else { Some(count) }
}
