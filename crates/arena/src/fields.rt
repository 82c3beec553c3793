// Fields: how many there are, their names, and what one holds.
ghost use Rattle.std.specs.Prelude.{◌≡◌, ℕ, ◌+◌, ◌<◌, ◌≤◌, ◌&&◌, ◌⊎◌, length, pos, Ok, Err, OnErr, nat_le};
ghost use Rattle.cells.specs.declared.Descriptor.{Descriptor as Desc};
ghost use Rattle.rules.specs.Model.{Text, Thing, string, Value, Model, fields};
ghost use Rattle.rules.specs.Arena.{Arena, At, Codes, Proper, Shows, desc};
ghost use Rattle.arena.specs.declared.faults.HeapFault.TheVariants.{NoField};
ghost use Rattle.arena.specs.Stored.{Field, Stored};

use crate::NAME;
use crate::faults::HeapFault;
use crate::titles::{field_count, pointer_at};
use cells::{Descriptor, Store};

// The fields of the block or string with this title.
pub fn count_at<S: Store>(store: &S, title: u32) -> Result<u32, HeapFault>
    ensures { (m : Model) (a : Arena) (x : Thing) → Shows m a (S.memory store.now) → At m a (S.memory store.now) x title → result ≡ Ok (fields m x) }
{
    Ok(field_count(store.descriptor(title)?))
}

// The length that a string's title tells.
pub fn text_length(t: Descriptor) -> u32
    ensures { result ≡ t.kind }
{
    t.kind
}

// The length of the string with this title.
pub fn length_at<S: Store>(store: &S, title: u32) -> Result<u32, HeapFault>
    ensures { (m : Model) (a : Arena) (t : Text) → Shows m a (S.memory store.now) → At m a (S.memory store.now) (string t) title → result ≡ Ok (length t) }
{
    Ok(text_length(store.descriptor(title)?))
}

// Whether one of n fields has the number k.
pub fn is_field(k: u32, n: u32) -> bool
    ensures { result ≡ (nat_le 1 k && nat_le k n) }
{
    (1..=n).contains(&k)
}

// The name of field k of the block or string with this title.
pub fn name_of<S: Store>(store: &S, title: u32, k: u32) -> Result<Descriptor, HeapFault>
    ensures there { (m : Model) (a : Arena) (x : Thing) → Shows m a (S.memory store.now) → At m a (S.memory store.now) x title → 1 ≤ k → k ≤ fields m x →
        result ≡ Ok (desc (pos (title + k)) 16 9) }
    ensures absent { (m : Model) (a : Arena) (x : Thing) → Shows m a (S.memory store.now) → At m a (S.memory store.now) x title → (k < 1) ⊎ (fields m x < k) →
        result ≡ Err (NoField k) }
{
    if !is_field(k, count_at(store, title)?) {
        return Err(HeapFault::NoField(k));
    }
    pointer_at(title.saturating_add(k), NAME)
}

// The value in the field with this cell.
pub fn fetch_field<S: Store>(store: &S, cell: u32) -> Result<Descriptor, HeapFault>
    ensures { (m : Model) (a : Arena) (x : Thing) (k : ℕ) → Field m a (S.memory store.now) x k cell →
        ((d : Desc) × (result ≡ Ok d) × Codes m a (S.memory store.now) (m.field x k) d) }
{
    Ok(store.descriptor(cell)?)
}

// Puts a value into the field with this cell.
pub fn store_field<S: Store>(store: &mut S, cell: u32, d: Descriptor) -> Result<(), HeapFault>
    ensures stored { (m : Model) (a : Arena) (x : Thing) (k : ℕ) (v : Value) → Field m a (S.memory store.old) x k cell → Codes m a (S.memory store.old) v d → Proper m v →
        ((result ≡ Ok tt) × Stored m a (S.memory store.old) x k v (S.memory store.new)) }
    ensures kept { OnErr result (store.new ≡ store.old) }
{
    store.set_descriptor(cell, d)?;
    Ok(())
}
