//! The addresses that the words watch.

ghost use Rattle.std.specs.Prelude.{◌≡◌, IfOk};
ghost use Rattle.spur_words.specs.Watched.{address_next, watched};
ghost use Rattle.spur_words.specs.Words.{texts};

use crate::reading::task_of;
use crate::table::{Field, Flag};
use spur_addr::GlobalAddr;
use std::alloc::{AllocError, Global};

/// The address that the first of these words writes. `None` where there is no word, or it writes none.
fn address_next(words: &[String]) -> Option<GlobalAddr>
    ensures { result ≡ address_next (texts words.now) }
{
    let word = words.first()?;
    let number = Field::Watch.number_in(word.as_bytes())?;
    if Field::Watch.allows(number) {
        GlobalAddr::of(number as u64)
    } else {
        None
    }
}

/// The addresses that the words behind the program's name watch, in their order, where the words are of the table, so
/// that `task_of` has a task of them; and no address where they are not.
///
/// Each is a global address: the number of a byte below 2^38, which the word behind its `--watch` writes in 1 to 10
/// lower-case hexadecimal digits. There are as many as words `--watch`, and at most 8. `AllocError` comes only for want
/// of memory.
pub fn watched(alloc: Global, words: &[String]) -> Result<Vec<GlobalAddr>, AllocError>
    ensures { IfOk result (λ addresses. addresses.items ≡ watched (texts words.now)) }
{
    let mut addresses = Vec::new(alloc);
    if task_of(words).is_err() {
        return Ok(addresses);
    }
    let name = Flag::Watch.name();
    for (place, word) in words.iter().enumerate() {
        if word.as_bytes() == name
            && let Some(at) = address_next(&words[place + 1..])
        {
            addresses.push(at)?;
        }
    }
    Ok(addresses)
}
