//! Where a store's history is stored.

use crate::change::TableChange;
use rows::Loaded;
use std::alloc::Global;

/// Why tables refuse.
#[derive(Clone, Copy, Debug, PartialEq, Eq)]
pub enum TablesError {
    /// A growth was refused. Nothing was changed.
    Memory,
    /// Any other cause. The one change that was to be stored may be or not.
    Fault,
}

/// Tables that hold the history of one store.
pub trait Tables {
    ghost use Rattle.std.specs.Prelude.{◌≡◌, ◌⊎◌, ℕ, List, [], ◌∷◌, IfOk, OnOk, Err};
    ghost use Rattle.rows.specs.Retained.{Retained};
    ghost use Rattle.rows.specs.Loads.{retained_of, IsWithin};
    ghost use Rattle.tables.specs.Device.{Device, IsOpen, IsClean, Lasts, HasFailed};
    ghost use Rattle.tables.specs.Leaving.{AreAmong};
    ghost use Rattle.tables.specs.Changing.{IsChangeOf, with_change, CanStore};
    ghost use Rattle.tables.specs.Storing.{one_more};

    // The history that they hold, as far as they are open.
    ghost holds: { Self → Retained → Type 0 };

    // If the process ends or crashes now, the tables that are left hold one of these.
    ghost leaves: { Self → List Retained → Type 0 };

    // The device below them.
    ghost device: { Self → Device };

    // How often they refused for another cause than memory.
    ghost count: { Self → ℕ };

    /// All that the tables hold. They refuse with `Fault` also where they hold no history, and are not mended: whatever
    /// they hold afterwards, they held before.
    fn load(&mut self, alloc: Global) -> Result<Loaded, TablesError>
        ensures held { IfOk result (λ loaded. holds self.new (retained_of loaded)) }
        ensures within { IfOk result IsWithin }
        ensures open { OnOk result (IsOpen (device self.new)) }
        ensures found { IfOk result (λ loaded. IsClean (device self.new) → holds self.old (retained_of loaded)) }
        ensures same { (r : Retained) → holds self.old r → IsClean (device self.new)
            → IfOk result (λ loaded. retained_of loaded ≡ r) }
        ensures only { (r : Retained) → holds self.new r → IsClean (device self.new) → IsOpen (device self.new)
            → holds self.old r }
        ensures kept { (r : Retained) → holds self.old r → holds self.new r }
        ensures left { (rs : List Retained) → leaves self.old rs → leaves self.new rs }
        ensures lasts { Lasts (device self.old) (device self.new) }
        ensures caused { result ≡ Err TablesError.Fault → IsOpen (device self.old)
            → HasFailed (device self.old) (device self.new)
            ⊎ ((r : Retained) → IsClean (device self.old) → ¬ (holds self.old r)) }
        ensures quiet { OnOk result (count self.new ≡ count self.old) }
        ensures memory { result ≡ Err TablesError.Memory → count self.new ≡ count self.old }
        ensures told { result ≡ Err TablesError.Fault → count self.new ≡ one_more (count self.old) };

    /// Stores one change, wholly or not at all.
    fn change(&mut self, change: &TableChange) -> Result<(), TablesError>
        requires { CanStore (holds self.old) change.now }
        ensures done { (r : Retained) → holds self.old r → IsChangeOf r change.now
            → OnOk result (holds self.new (with_change r change.now)) }
        ensures open { OnOk result (IsOpen (device self.new)) }
        ensures undone { (r : Retained) → holds self.old r → result ≡ Err TablesError.Memory
            → holds self.new r }
        ensures left { (r : Retained) (rs : List Retained) → holds self.old r → leaves self.old rs
            → IsChangeOf r change.now → leaves self.new (with_change r change.now ∷ rs) }
        ensures lasts { Lasts (device self.old) (device self.new) }
        ensures caused { result ≡ Err TablesError.Fault → IsOpen (device self.old)
            → HasFailed (device self.old) (device self.new) }
        ensures quiet { OnOk result (count self.new ≡ count self.old) }
        ensures memory { result ≡ Err TablesError.Memory → count self.new ≡ count self.old }
        ensures told { result ≡ Err TablesError.Fault → count self.new ≡ one_more (count self.old) };

    /// How often they refused for another cause than memory. At 2^64 - 1 it stays.
    fn faults(&self) -> u64
        ensures { result ≡ count self.now };

    // Open tables leave what they hold, and nothing else.
    ghost settled: { (t : Self) (r : Retained) → holds t r → IsOpen (device t) → leaves t (r ∷ []) };

    // What leaves one of these leaves one of more.
    ghost weaker: { (t : Self) (rs ss : List Retained) → AreAmong rs ss → leaves t rs → leaves t ss };
}
