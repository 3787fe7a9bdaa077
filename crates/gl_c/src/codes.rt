//! What a call answers, and the numbers that C gives.
ghost use Rattle.std.specs.Prelude.{◌≡◌};

/// The call was done.
pub const OK: u32 = 0;
/// Memory was refused.
pub const MEMORY: u32 = 1;
/// The lane has no room.
pub const FULL: u32 = 2;
/// The handle is not one that the call works on.
pub const MISUSE: u32 = 3;
/// A number is out of its range.
pub const RANGE: u32 = 4;
/// All lanes were given out.
pub const NO_LANE: u32 = 5;
/// The session was freed before the lane was closed.
pub const UNCONFIRMED: u32 = 6;
/// The lane is of another session, or of a thread whose lane was handed in already.
pub const STRANGE: u32 = 7;
/// A thread's lane was not handed in, or not all of it was pulled.
pub const MISSING: u32 = 8;
/// A note that was pulled may not come next.
pub const BROKEN: u32 = 9;
/// A segment of the lists is before itself.
pub const INCONSISTENT: u32 = 10;
/// There are as many names as there may be.
pub const NAMES: u32 = 11;
/// A lock or a place has no name.
pub const UNNAMED: u32 = 12;

/// The thread has as many events as there may be.
pub const EVENTS_FULL: u32 = 20;
/// A fork or join of a thread that the session doesn't have.
pub const NO_SUCH_THREAD: u32 = 21;
/// A fork or join of the thread itself.
pub const ON_ITSELF: u32 = 22;
/// A release of a lock that the thread doesn't hold.
pub const NOT_HELD: u32 = 23;
/// An acquire of one more lock where the thread holds 64.
pub const HELD_FULL: u32 = 24;
/// An acquire of a lock that the thread has acquired 1,000,000 times.
pub const DEPTH_FULL: u32 = 25;
/// An exclusive acquire of a lock that the thread holds in shared mode.
pub const UPGRADE: u32 = 26;

/// A lock is acquired by one thread alone.
pub const ACQUIRE: u32 = 0;
/// A lock is acquired with other readers.
pub const ACQUIRE_SHARED: u32 = 1;
/// A lock that was acquired alone is released.
pub const RELEASE: u32 = 2;
/// A lock that was acquired with other readers is released.
pub const RELEASE_SHARED: u32 = 3;
/// An attempt to acquire a lock alone succeeded.
pub const TRY_ACQUIRE: u32 = 4;
/// An attempt to acquire a lock with other readers succeeded.
pub const TRY_ACQUIRE_SHARED: u32 = 5;
/// A thread is started.
pub const FORK: u32 = 6;
/// A thread was waited for.
pub const JOIN: u32 = 7;

/// The mode of a query that asks least.
pub const BASIC: u32 = 0;
/// The mode that asks for no gate lock, too.
pub const GUARDED: u32 = 1;
/// The mode that asks for no order by forks and joins, too.
pub const FULL_MODE: u32 = 2;

/// The numbers that a program in C is compiled with, which `library/goodlock.h` says once more. It does nothing: its
/// contract is the table.
pub fn codes_in_numbers()
    ensures done { OK ≡ 0 }
    ensures no_memory { MEMORY ≡ 1 }
    ensures lanes { (FULL ≡ 2) × (MISUSE ≡ 3) × (RANGE ≡ 4) × (NO_LANE ≡ 5) }
    ensures settling { (UNCONFIRMED ≡ 6) × (STRANGE ≡ 7) × (MISSING ≡ 8) × (BROKEN ≡ 9) }
    ensures reports { (INCONSISTENT ≡ 10) × (NAMES ≡ 11) × (UNNAMED ≡ 12) }
    ensures full { EVENTS_FULL ≡ 20 }
    ensures partners { (NO_SUCH_THREAD ≡ 21) × (ON_ITSELF ≡ 22) }
    ensures not_held { NOT_HELD ≡ 23 }
    ensures acquired { (HELD_FULL ≡ 24) × (DEPTH_FULL ≡ 25) × (UPGRADE ≡ 26) }
    ensures acquires { (ACQUIRE ≡ 0) × (ACQUIRE_SHARED ≡ 1) }
    ensures releases { (RELEASE ≡ 2) × (RELEASE_SHARED ≡ 3) }
    ensures tries { (TRY_ACQUIRE ≡ 4) × (TRY_ACQUIRE_SHARED ≡ 5) }
    ensures forks { (FORK ≡ 6) × (JOIN ≡ 7) }
    ensures modes { (BASIC ≡ 0) × (GUARDED ≡ 1) × (FULL_MODE ≡ 2) }
{}
