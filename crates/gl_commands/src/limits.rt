//! What bounds traces and queries.
ghost use Rattle.std.specs.Prelude.{◌≡◌};
ghost use Rattle.gl_event.specs.declared.limits.TheConstants.{MAX_THREADS, MAX_RING, MAX_EVENTS, MAX_NAMES};
ghost use Rattle.gl_event.specs.declared.held.TheConstants.{MAX_HELD, MAX_DEPTH};
ghost use Rattle.gl_filters.specs.declared.query.TheConstants.{MAX_LEN, MAX_CYCLES};
ghost use Rattle.gl_std.specs.declared.line.TheConstants.{MAX_LINE};
ghost use Rattle.gl_shards.specs.declared.shard.TheConstants.{MAX_SHARDS};

/// The limits of the program, in numbers. It does nothing: its contract is the table.
pub fn limits_in_numbers()
    ensures threads { MAX_THREADS ≡ 1024 }
    ensures ring { MAX_RING ≡ 65536 }
    ensures events { MAX_EVENTS ≡ 4000000000 }
    ensures names { MAX_NAMES ≡ 4000000000 }
    ensures held_locks { MAX_HELD ≡ 64 }
    ensures depth { MAX_DEPTH ≡ 1000000 }
    ensures line { MAX_LINE ≡ 65536 }
    ensures length { MAX_LEN ≡ 16 }
    ensures cycles { MAX_CYCLES ≡ 100000 }
    ensures shards { MAX_SHARDS ≡ 16 }
{}
