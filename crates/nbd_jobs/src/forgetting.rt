// A session over a disk that forgets, or whose medium fails.

ghost use Rattle.std.specs.Prelude.{◌≡◌, IfOk, IsTrue};
ghost use Rattle.nbd_session.specs.Manners.{while_clean};
ghost use Rattle.nbd_session.specs.Store.{Stays};
ghost use Rattle.nbd_session.specs.Streams.{streams};
ghost use Rattle.volatile_cache.specs.Fates.{chance_of, coin_of, lost_by};
ghost use Rattle.volatile_cache.specs.Outcomes.{deferring};
ghost use Rattle.volatile_cache.specs.Queue.{all_pending};
ghost use Rattle.zone_translator.specs.Keeping.{KeepsServed};
ghost use Rattle.nbd_jobs.specs.Failing.{DoneFailing};
ghost use Rattle.nbd_jobs.specs.Forgetting.{Applies, ForgetsAs, IsCut, LeavesBy, LosesBy, ServesStore};
ghost use Rattle.nbd_jobs.specs.Forgetting.{ends_well};

use crate::failing::{failing_store, failures_of};
use crate::job::{Fail, Forget};
use nbd_session::{
    Client, SessionEnd, SessionFault, Store, StoreFault, serve_any, serve_any_at_most,
};
use std::alloc::Global;
use std::io::Write;
use volatile_cache::VolatileCache;
use zone_translator::DiskFault;

/// How many bytes of blocks may be pending in the cache of a disk that forgets. The oldest are applied when it is full.
pub const CACHE_BYTES: u64 = 64 << 20;

/// What became of the blocks that were pending when a session over a disk that forgets had ended.
#[derive(Clone, Copy, Debug, PartialEq, Eq)]
pub struct Forgotten {
    /// How the session ended. Where the client has said so, the pending blocks are applied. Else the power is cut.
    pub ended: Result<SessionEnd, SessionFault>,
    /// How many blocks were pending.
    pub pending: u64,
    /// How many of them are lost; or why some were not applied, or are not durable.
    pub lost: Result<u64, StoreFault>,
}

impl Forgotten {
    /// Why blocks were not applied, or are not durable, though the drive had not stopped.
    pub fn fault(&self) -> Option<StoreFault> {
        match self.lost {
            Ok(_) | Err(StoreFault::Disk(DiskFault::Stopped)) => None,
            Err(fault) => Some(fault),
        }
    }
}

/// A store that was served, and what is told of it.
#[derive(Drop)]
pub(crate) struct AfterServing<S: Store + Drop> {
    pub store: S,
    /// What was forgotten, if the disk forgets.
    pub forgotten: Option<Forgotten>,
    /// How many requests failed by chance, if some were to.
    pub failed: Option<u64>,
    /// How the session ended.
    pub result: Result<(), SessionFault>,
}

/// Whether a session ended well.
fn ends_well(ended: Result<SessionEnd, SessionFault>) -> Result<(), SessionFault>
    ensures { result ≡ ends_well ended }
{
    match ended {
        Ok(_) => Ok(()),
        Err(fault) => Err(fault),
    }
}

/// Applies all that is pending, and syncs it. So many blocks are lost then: none.
fn apply_pending<S: Store + Drop>(cache: &mut VolatileCache<S>) -> Result<u64, StoreFault>
    ensures applies { IsTrue (S.view cache.new.store).disk.drive.clean
        → Applies (S.view cache.old.store) (all_pending cache.old.kept) result (S.view cache.new.store) }
    ensures kept { IsTrue (S.view cache.new.store).disk.drive.clean
        → KeepsServed (S.view cache.old.store).disk (S.view cache.new.store).disk }
    // Whatever the Reads returned.
    ensures lost { IfOk result (λ lost. lost ≡ 0) }
    ensures stays { Stays (deferring (S.view cache.old.store)) (deferring (S.view cache.new.store)) }
{
    match cache.sync() {
        Ok(()) => Ok(0),
        Err(fault) => Err(fault),
    }
}

/// Cuts the power: how many of the pending blocks are lost.
fn cut_power<S: Store + Drop>(
    cache: &mut VolatileCache<S>,
    forget: Forget,
) -> Result<u64, StoreFault>
    ensures cut { IsTrue (S.view cache.new.store).disk.drive.clean
        → IsCut forget (S.view cache.old.store) (all_pending cache.old.kept) result (S.view cache.new.store) }
    ensures kept { IsTrue (S.view cache.new.store).disk.drive.clean
        → KeepsServed (S.view cache.old.store).disk (S.view cache.new.store).disk }
    // Whatever the Reads returned.
    ensures lost { IfOk result (λ lost.
        lost ≡ lost_by (coin_of forget.odds) (chance_of forget.seed) (all_pending cache.old.kept)) }
    ensures stays { Stays (deferring (S.view cache.old.store)) (deferring (S.view cache.new.store)) }
{
    match cache.cut_any(forget.seed, forget.odds) {
        Ok(lost) => Ok(lost.lost),
        Err(fault) => Err(fault),
    }
}

/// Applies what is pending if the client has said that its session ends, and else cuts the power.
fn end_pending<S: Store + Drop>(
    cache: &mut VolatileCache<S>,
    forget: Forget,
    ended: Result<SessionEnd, SessionFault>,
) -> Result<u64, StoreFault>
    ensures leaves { IsTrue (S.view cache.new.store).disk.drive.clean
        → LeavesBy forget ended (S.view cache.old.store) (all_pending cache.old.kept) result (S.view cache.new.store) }
    ensures kept { IsTrue (S.view cache.new.store).disk.drive.clean
        → KeepsServed (S.view cache.old.store).disk (S.view cache.new.store).disk }
    // Whatever the Reads returned.
    ensures lost { IfOk result (LosesBy forget ended (all_pending cache.old.kept)) }
    ensures stays { Stays (deferring (S.view cache.old.store)) (deferring (S.view cache.new.store)) }
{
    match ended {
        Ok(SessionEnd::Disconnected) => apply_pending(cache),
        _ => cut_power(cache, forget),
    }
}

/// Serves a store to a client with a cache above it, and applies what is pending at the end, or cuts the power. The
/// medium fails above the cache, which sees no request that failed.
fn serve_forgetting<S: Store + Drop, R: Client, W: Write>(
    alloc: Global,
    fail: Option<Fail>,
    forget: Forget,
    store: S,
    reader: &mut R,
    writer: &mut W,
) -> (S, Forgotten, Option<u64>)
    ensures { DoneFailing fail (λ old new. ForgetsAs while_clean forget
        (streams (R.remaining reader.old) (R.remaining reader.new) (W.contents writer.old) (W.contents writer.new))
        old result.1 new) (S.view store) (S.view result.0) }
{
    let cache = VolatileCache::new(alloc, store, CACHE_BYTES);
    let mut served = failing_store(cache, fail);
    let ended = serve_any_at_most(alloc, reader, writer, &mut served, forget.cut_after);
    let failed = failures_of(&served, fail);
    let mut cache = served.into_store();
    let pending = cache.pending() as u64;
    let lost = end_pending(&mut cache, forget, ended);
    let forgotten = Forgotten {
        ended,
        pending,
        lost,
    };
    (cache.into_store(), forgotten, failed)
}

/// Serves a store to a client: with a cache above it that forgets, if that is asked for. Its medium fails by chance, if
/// that is asked for.
pub(crate) fn serve_store<S: Store + Drop, R: Client, W: Write>(
    alloc: Global,
    fail: Option<Fail>,
    forget: Option<Forget>,
    store: S,
    reader: &mut R,
    writer: &mut W,
) -> AfterServing<S>
    ensures { DoneFailing fail (λ old new. ServesStore forget
        (streams (R.remaining reader.old) (R.remaining reader.new) (W.contents writer.old) (W.contents writer.new))
        old result.result result.forgotten new) (S.view store) (S.view result.store) }
{
    let Some(forget) = forget else {
        let mut served = failing_store(store, fail);
        let result = serve_any(alloc, reader, writer, &mut served);
        return AfterServing {
            failed: failures_of(&served, fail),
            store: served.into_store(),
            forgotten: None,
            result,
        };
    };
    let (store, forgotten, failed) = serve_forgetting(alloc, fail, forget, store, reader, writer);
    AfterServing {
        store,
        forgotten: Some(forgotten),
        failed,
        result: ends_well(forgotten.ended),
    }
}
