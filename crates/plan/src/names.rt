// The names of an input, and each of them once.
ghost use Rattle.std.specs.Prelude.{◌≡◌, ◌<◌, [], ◌∷◌, length, IfOk, MatchOption};
ghost use Rattle.std.specs.Cmp.Rules.{hashing};
ghost use Rattle.std.proofs.Common.{rules};
ghost use Rattle.plan.specs.Names.{texts, name_texts, names, distinct, hashed};

use indexmap::IndexSet;
use memchr::memchr;
use std::alloc::{AllocError, Global};
use std::hash::{Hash, Hasher};

// The next name of an input, and what stands behind it.
fn next_name<'a>(input: &'a [u8]) -> Option<(&'a [u8], &'a [u8])>
    ensures { MatchOption result (names input.now ≡ []) (λ p. (names input.now ≡ p.0.now ∷ names p.1.now) × (length p.1.now < length input.now)) }
{
    let start = input.iter().position(|b| *b != b'\n')?;
    let line = &input[start..];
    let end = memchr(b'\n', line).unwrap_or(line.len());
    Some(line.split_at(end))
}

// The names of an input, one to a line. An empty line is none.
pub fn names_of<'a>(heap: Global, input: &'a [u8]) -> Result<Vec<&'a [u8]>, AllocError>
    ensures { IfOk result (λ v. texts v.items ≡ names input.now) }
{
    let mut found = Vec::new(heap);
    let mut rest = input;
    while let Some((name, behind)) = next_name(rest) {
        found.push(name)?;
        rest = behind;
    }
    Ok(found)
}

// Of a name the set hashes so many bytes at either end.
const HASHED_END: usize = 1_048_576;

// A name in a set. It is hashed whole, unless it is longer than two such ends: then by its length and its ends.
#[derive(Clone, Copy, PartialEq, Eq)]
pub(crate) struct Name<'a>(pub(crate) &'a [u8]);

impl Hash for Name<'_> {
    ghost hash_input = { λ n. hashed n.0.now };

    ghost respects_eq = { Prim.search (hashing, rules) };

    fn hash<H: Hasher>(&self, state: &mut H) {
        let (front, behind) = self.0.split_at(self.0.len().min(HASHED_END));
        state.write_usize(self.0.len());
        state.write(front);
        state.write(&behind[behind.len().saturating_sub(HASHED_END)..]);
    }
}

// The names without repetition, in the order in which each stands first.
pub(crate) fn distinct_of<'a>(
    heap: Global,
    names: &[&'a [u8]],
) -> Result<IndexSet<Name<'a>>, AllocError>
    ensures { IfOk result (λ once. name_texts once.keys ≡ distinct (texts names.now)) }
{
    let mut once = IndexSet::new(heap);
    for &name in names {
        once.insert(Name(name))?;
    }
    Ok(once)
}
