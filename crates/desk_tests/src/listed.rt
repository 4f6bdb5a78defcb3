//! Tables in memory that are loaded after a write: the program loads them while they are empty.

use config::Config;
use std::alloc::Global;
use tables::{Listed, Puts, TableChange, Tables, TablesError};
use tuple_keys::KeptCommit;

fn stores_one(alloc: Global) -> Result<bool, TablesError> {
    let mut tables = Listed::new(alloc, 7);
    let Ok(commit) = KeptCommit::of_config(alloc, Config::empty(alloc)) else {
        return Err(TablesError::Memory);
    };
    tables.change(&TableChange::Commit {
        rev: 1,
        commit,
        puts: Puts::Absent,
    })?;
    let loaded = tables.load(alloc)?;
    let commits = loaded.commits.as_slice().len();
    Ok(loaded.number == 7 && loaded.floor == 0 && commits == 1 && tables.faults() == 0)
}

#[test]
fn what_is_written_is_loaded(rt: HostRuntime) {
    assert!(rt; stores_one(rt.alloc()).unwrap_or(false));
}
