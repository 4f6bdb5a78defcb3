//! Tables that are known to have failed.
ghost use Rattle.std.specs.Prelude.{◌≡◌, ◌∷◌, [], List, true, false, Err, IfOk, IfErr, OnOk, OnErr};
ghost use Rattle.rows.specs.Retained.{Retained};
ghost use Rattle.rows.specs.Loads.{retained_of, IsWithin};
ghost use Rattle.tables.specs.Device.{IsClean, IsOpen, Lasts};
ghost use Rattle.tables.specs.Changing.{IsChangeOf, with_change, CanStore};
ghost use Rattle.tables.specs.Opening.{CannotOpen};
ghost use Rattle.desk.specs.Posts.{Agrees, ComesBack, FailsToLoad};
ghost use Rattle.desk.specs.TableChanges.{CanChange};
ghost use Rattle.desk.specs.inside.Latching.{IsLatched, AgreeWith};
ghost use Rattle.desk.specs.inside.Changing.{plain};

use names::Refusal;
use rows::Loaded;
use std::alloc::Global;
use tables::{TableChange, Tables, TablesError};

/// Tables, and whether they failed. Nothing outside this file can say that they did.
#[derive(Drop)]
pub(crate) struct LatchedTables<T: Tables + Drop> {
    tables: T,
    failed: bool,
}

impl<T: Tables + Drop> LatchedTables<T> {
    /// Tables that have not failed.
    pub(crate) fn new(tables: T) -> LatchedTables<T>
        ensures tables { result.tables ≡ tables }
        ensures failed { result.failed ≡ false }
    {
        LatchedTables {
            tables,
            failed: false,
        }
    }

    pub(crate) fn has_failed(&self) -> bool
        ensures { result ≡ self.now.failed }
    {
        self.failed
    }

    /// The tables.
    pub(crate) fn into_tables(self) -> T
        ensures { result ≡ self.tables }
    {
        self.tables
    }

    // Notes that the tables failed.
    fn note_fault(&mut self) -> Refusal
        ensures refusal { result ≡ Refusal.StoreFault }
        ensures failed { self.new.failed ≡ true }
        ensures tables { self.new.tables ≡ self.old.tables }
    {
        self.failed = true;
        Refusal::StoreFault
    }

    /// Stores a change, and notes a fault.
    pub(crate) fn change(&mut self, change: &TableChange) -> Result<(), Refusal>
        requires works { self.old.failed ≡ false }
        requires can { CanStore (T.holds self.old.tables) change.now }
        ensures ok { OnOk result (self.new.failed ≡ false) }
        ensures open { OnOk result (IsOpen (T.device self.new.tables)) }
        ensures quiet { OnOk result (T.count self.new.tables ≡ T.count self.old.tables) }
        ensures err { IfErr result (λ why. IsLatched T.Tables self.old why self.new) }
        ensures stored { (r : Retained) → AgreeWith T.Tables self.old r → IsChangeOf r change.now
            → OnOk result (AgreeWith T.Tables self.new (with_change r change.now)) }
        ensures held { (r : Retained) → AgreeWith T.Tables self.old r → IsChangeOf r change.now
            → OnOk result (T.holds self.new.tables (with_change r change.now)) }
        ensures settled { (r : Retained) → AgreeWith T.Tables self.old r → IsChangeOf r change.now
            → OnOk result (T.leaves self.new.tables (with_change r change.now ∷ [])) }
        ensures unstored { (r : Retained) → AgreeWith T.Tables self.old r → IsChangeOf r change.now
            → CanChange r (plain change.now) → OnErr result (AgreeWith T.Tables self.new r) }
        ensures left { (r : Retained) (rs : List Retained) → AgreeWith T.Tables self.old r
            → IsChangeOf r change.now → T.leaves self.old.tables rs
            → T.leaves self.new.tables (with_change r change.now ∷ rs) }
        ensures lasts { Lasts (T.device self.old.tables) (T.device self.new.tables) }
    {
        match self.tables.change(change) {
            Ok(()) => Ok(()),
            Err(TablesError::Memory) => Err(Refusal::Memory),
            Err(TablesError::Fault) => Err(self.note_fault()),
        }
    }
}

/// Loads tables.
pub(crate) fn load<T: Tables>(tables: &mut T, alloc: Global) -> Result<Loaded, Refusal>
    ensures within { IfOk result IsWithin }
    ensures agrees { IfOk result (λ loaded. Agrees T.Tables false tables.new (retained_of loaded)) }
    ensures settled { IfOk result (λ loaded. T.leaves tables.new (retained_of loaded ∷ [])) }
    ensures open { OnOk result (IsOpen (T.device tables.new)) }
    ensures found { IfOk result (λ loaded. IsClean (T.device tables.new)
        → T.holds tables.old (retained_of loaded)) }
    ensures same { (r : Retained) → T.holds tables.old r → IsClean (T.device tables.new)
        → IfOk result (λ loaded. retained_of loaded ≡ r) }
    ensures back { ComesBack T.Tables tables.old tables.new }
    ensures quiet { OnOk result (T.count tables.new ≡ T.count tables.old) }
    ensures err { IfErr result CannotOpen }
    ensures caused { result ≡ Err Refusal.StoreFault → IsOpen (T.device tables.old)
        → FailsToLoad T.Tables tables.old tables.new }
{
    match tables.load(alloc) {
        Ok(loaded) => Ok(loaded),
        Err(TablesError::Memory) => Err(Refusal::Memory),
        Err(TablesError::Fault) => Err(Refusal::StoreFault),
    }
}
