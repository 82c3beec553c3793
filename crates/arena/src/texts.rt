// Texts: whether one fits, and the characters of a string in a lent buffer.
ghost use Rattle.std.specs.Prelude.{◌≤◌, length, IfOk, IfSome, ◌≡◌, ℕ, List, Ok};
ghost use Rattle.rules.specs.Model.{Text, Model, string};
ghost use Rattle.rules.specs.Arena.{Arena, At, Shows};
ghost use Rattle.arena.specs.Enters.{Takes};
ghost use Rattle.arena.specs.Finds.{Readable, Spells};
ghost use Rattle.arena.specs.Texts.{fit_text, ReadOut};

use crate::faults::HeapFault;
use crate::fields::text_length;
use crate::strings::character_at;
use cells::{Store, StoreFault};
use rules::LONGEST_TEXT;

// Refuses a text that is too long, or that has a character which the store does not take.
pub fn fit<S: Store>(store: &S, text: &[u8]) -> Result<(), HeapFault>
    ensures exact { result ≡ fit_text (S.memory store.now).figures text.now }
    ensures taken { result ≡ Ok tt → Takes (S.memory store.now) text.now }
{
    if text.len() > LONGEST_TEXT as usize {
        return Err(HeapFault::LongText);
    }
    let codes = store.lowest()..=store.highest();
    match text.iter().position(|code| !codes.contains(code)) {
        Some(place) => Err(HeapFault::Cells(StoreFault::BadCode, place as u32)),
        None => Ok(()),
    }
}

// Writes the characters of the string with this title to the start of the buffer, and gives their count; None if the buffer
// is too short for them.
pub fn read_text<S: Store>(
    store: &S,
    title: u32,
    buffer: &mut [u8],
) -> Result<Option<u32>, HeapFault>
    ensures spelt { (t : List ℕ) → Readable (S.memory store.now) title → Spells (S.memory store.now) title t →
        ReadOut t buffer.old buffer.new result }
    ensures shown { (m : Model) (a : Arena) (t : Text) → Shows m a (S.memory store.now) → At m a (S.memory store.now) (string t) title →
        ReadOut t buffer.old buffer.new result }
    ensures within { IfOk result (λ count. IfSome count (λ n. n ≤ length buffer.new)) }
{
    let length = text_length(store.descriptor(title)?);
    if length as usize > buffer.len() {
        return Ok(None);
    }
    for j in 0..length {
        buffer[j as usize] = character_at(store, title, j)?;
    }
    Ok(Some(length))
}
