// A store whose medium fails by chance, if that is asked for.

ghost use Rattle.std.specs.Prelude.{◌≡◌};
ghost use Rattle.nbd_jobs.specs.Failing.{odds_of};

use crate::job::Fail;
use nbd_session::{FailingStore, Store};

/// A store whose medium fails in requests, if that is asked for. It fails in no sync. If it is not asked for, the store
/// is as it was.
pub(crate) fn failing_store<S: Store + Drop>(store: S, fail: Option<Fail>) -> FailingStore<S>
    ensures store { result.store ≡ store }
    ensures odds { result.odds ≡ odds_of fail }
{
    match fail {
        Some(fail) => FailingStore::new(store, fail.seed, fail.odds).sparing_syncs(),
        None => FailingStore::new(store, 0, 0),
    }
}

/// In how many requests the medium has failed, if that was asked for.
pub(crate) fn failures_of<S: Store + Drop>(
    store: &FailingStore<S>,
    fail: Option<Fail>,
) -> Option<u64> {
    match fail {
        Some(_) => Some(store.failures()),
        None => None,
    }
}
