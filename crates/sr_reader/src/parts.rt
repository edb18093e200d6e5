//! The parts of a line, with one space between two.
ghost use Rattle.std.specs.Prelude.{◌≡◌};
ghost use Rattle.std.specs.Char.{is_ascii_digit};
ghost use Rattle.std.specs.List.{list_all};
ghost use Rattle.sr_lines.specs.Parts.{is_client};
ghost use Rattle.sr_lines.specs.Script.{part_of, behind, are_digits, client_number, place_number};

/// The part in front of the first space, and what stands behind that space: nothing, where there is none.
pub(crate) fn split(line: &str) -> (&str, &str)
    ensures part { result.0.now ≡ part_of line.now }
    ensures behind { result.1.now ≡ behind line.now }
{
    match line.split_once(' ') {
        Some(parts) => parts,
        None => (line, ""),
    }
}

fn all_digits(part: &str) -> bool
    ensures { result ≡ list_all is_ascii_digit part.now }
{
    part.as_bytes().iter().all(|b| b.is_ascii_digit())
}

/// Whether a part has digits alone, so many at most and one at least.
fn are_digits(most: usize, part: &str) -> bool
    ensures { result ≡ are_digits most part.now }
{
    1 <= part.len() && part.len() <= most && all_digits(part)
}

fn is_client(clients: u8, number: u8) -> bool
    ensures { result ≡ is_client clients number }
{
    1 <= number && number <= clients
}

/// The number of a client, if the part is one.
pub(crate) fn client_number(clients: u8, part: &str) -> Option<u8>
    ensures { result ≡ client_number clients part.now }
{
    if !are_digits(3, part) {
        return None;
    }
    let Ok(number) = part.parse::<u8>() else {
        return None;
    };
    if is_client(clients, number) {
        Some(number)
    } else {
        None
    }
}

/// The place in class order, counted from 0, if the part is one.
pub(crate) fn place_number(part: &str) -> Option<u32>
    ensures { result ≡ place_number part.now }
{
    if !are_digits(9, part) {
        return None;
    }
    part.parse::<u32>().ok()
}
