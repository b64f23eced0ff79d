//! Whether all nodes have digests of their own.

ghost use Rattle.std.specs.Prelude.{◌≡◌, ◌≢◌, ◌↔◌, ◌<◌, Err, ℕ, IfOk, IfSome, IsSome, List, Ok, OnOk, Some, IsTrue, false, length, true};
ghost use Rattle.std.specs.List.{IsDistinct};
ghost use Rattle.std.specs.Str.{bytes_eq};
ghost use Rattle.external_sort.specs.Records.{Entry};
ghost use Rattle.external_sort.specs.Sorting.{Gives, GoesOn, Holds, current, yet};
ghost use Rattle.pack_assembly.specs.internal.Keys.{AreDigests, NoneTwice, keys_in};

use crate::fault::AssemblyFault;
use crate::refusal::Refusal;
use external_sort::{RunStore, Sorted, Sorter};
use tree_node::Digest;

/// Refused with `Clash` where two of these digests are equal, and where the sorter refuses.
pub(crate) fn check_apart<S: RunStore>(digests: Sorter<S>) -> Result<(), AssemblyFault>
    ensures apart { S.is_true ≡ true → (records : List Entry)
        → Holds S.runs S.in_hand digests records
        → OnOk result (IsDistinct bytes_eq (keys_in records)) }
    ensures clash { result ≡ Err AssemblyFault.Clash → S.is_true ≡ true → (records : List Entry)
        → Holds S.runs S.in_hand digests records → ¬ IsDistinct bytes_eq (keys_in records) }
    ensures short { result ≢ Err AssemblyFault.TooLong }
    ensures device { S.may_refuse ≡ false → S.is_true ≡ true → (records : List Entry)
        → Holds S.runs S.in_hand digests records → AreDigests records
        → result ≢ Err AssemblyFault.Device }
{
    match digests.finish() {
        Ok(mut sorted) => check_sorted(&mut sorted),
        Err(fault) => Err(AssemblyFault::from(Refusal::from(fault))),
    }
}

/// Refused with `Clash` where a digest is that of the one before it.
fn check_sorted<S: RunStore>(sorted: &mut Sorted<S>) -> Result<(), AssemblyFault>
    ensures apart { S.is_true ≡ true → (given : List Entry) → Gives S.runs sorted.old given
        → OnOk result (NoneTwice (keys_in given)) }
    ensures clash { result ≡ Err AssemblyFault.Clash → S.is_true ≡ true → (given : List Entry)
        → Gives S.runs sorted.old given → ¬ NoneTwice (keys_in given) }
    ensures short { result ≢ Err AssemblyFault.TooLong }
    ensures device { S.may_refuse ≡ false → S.is_true ≡ true → (given : List Entry)
        → Gives S.runs sorted.old given → AreDigests given → result ≢ Err AssemblyFault.Device }
{
    let mut before = None;
    'digests: while go_on(sorted)? {
        let Some(key) = key_of(sorted) else {
            return Err(AssemblyFault::Device);
        };
        if is_same(&before, &key) {
            return Err(AssemblyFault::Clash);
        }
        before = Some(key);
    }
    Ok(())
}

/// Goes to the next digest, and says whether there is one.
fn go_on<S: RunStore>(sorted: &mut Sorted<S>) -> Result<bool, Refusal>
    ensures next { S.is_true ≡ true → (given : List Entry) → Gives S.runs sorted.old given
        → IfOk result (λ more. GoesOn S.runs more sorted.new given) }
    ensures fewer { result ≡ Ok true → yet sorted.new < yet sorted.old }
    ensures device { S.may_refuse ≡ false → S.is_true ≡ true → (given : List Entry)
        → Gives S.runs sorted.old given → result ≢ Err Refusal.Device }
{
    Ok(sorted.next()?)
}

/// The digest that the sorter is at; none where it is at something else.
fn key_of<S: RunStore>(sorted: &Sorted<S>) -> Option<Digest>
    ensures key { (e : Entry) → current sorted.now ≡ Some e → IfSome result (λ key. key.0 ≡ e.key) }
    ensures there { (e : Entry) → current sorted.now ≡ Some e → length e.key ≡ 32 → IsSome result }
{
    let record = sorted.record()?;
    Digest::from_slice(record.key)
}

/// Whether this digest is that of the one before.
fn is_same(before: &Option<Digest>, key: &Digest) -> bool
    ensures { IsTrue result ↔ (before.now ≡ Some key.now) }
{
    match before {
        Some(last) => last == key,
        None => false,
    }
}
