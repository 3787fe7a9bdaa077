//! Notes through a thread's own lane.
ghost use Rattle.std.specs.Prelude.{◌≡◌};
ghost use Rattle.gl_lane.specs.Rule.{IsPlaced};

use gl_event::{Body, Event, LocId, MAX_RING, Note, ThreadId};
use gl_lane::{OwnLaneIn, OwnLaneOut, own_lane};
use std::alloc::Global;
use std::marker::Model;

// An event of the thread at this place.
fn event_at(place: u32) -> Note
    ensures own { result.thread ≡ 3 }
    ensures there { result.place ≡ place }
    ensures placed { IsPlaced result }
{
    Note {
        thread: ThreadId::new(3),
        place,
        body: Body::Happened(Event::Join {
            thread: ThreadId::new(4),
            loc: LocId::new(7),
        }),
    }
}

// The recorder's end of thread 3's own lane, and how many notes were pushed into it.
#[derive(Drop)]
struct Recorder {
    lane: OwnLaneIn,
    pushed: u32,
}

impl Model for Recorder {
    ghost use Rattle.std.specs.Prelude.{◌≡◌, length};
    ghost use Rattle.gl_lane.specs.OwnLanes.{OwnPushing};

    ghost Value = { OwnPushing };

    ghost view = { λ r. r.lane };

    ghost invariant = { λ r. (r.lane.lane.thread ≡ 3) × (r.pushed ≡ length r.lane.pushed) };
}

impl Recorder {
    // Pushes the note, and answers whether there was room; None where it isn't the next one, or another one is
    // handed back.
    fn push(&mut self, note: Note) -> Option<bool>
        requires own { note.thread ≡ 3 }
        requires placed { IsPlaced note }
    {
        let more = self.pushed.checked_add(1)?;
        if note.place != self.pushed {
            return None;
        }
        match self.lane.push(note) {
            Ok(()) => {
                self.pushed = more;
                Some(true)
            }
            Err(back) if back == note => Some(false),
            Err(_) => None,
        }
    }
}

// The two ends of a lane.
fn both_ends(alloc: Global, ring: u32) -> Option<(Recorder, OwnLaneOut)> {
    if ring == 0 || ring > MAX_RING {
        return None;
    }
    let (lane, collector) = own_lane(alloc, ThreadId::new(3), ring).ok()?;
    Some((Recorder { lane, pushed: 0 }, collector))
}

// Whether so many events are pushed.
fn pushes(recorder: &mut Recorder, count: u32) -> bool {
    for place in 0..count {
        if recorder.push(event_at(place)) != Some(true) {
            return false;
        }
    }
    true
}

// Whether so many events are seen and popped, each as the thread's at its place.
fn pops(collector: &mut OwnLaneOut, count: u32) -> bool {
    for place in 0..count {
        let seen = collector.peek();
        if seen != Some(event_at(place)) || collector.pop() != seen {
            return false;
        }
    }
    true
}

// More than are taken off a ring together, and then there is room for more.
fn come_out_whole(recorder: &mut Recorder, collector: &mut OwnLaneOut) -> bool {
    collector.pop().is_none()
        && pushes(recorder, 20)
        && recorder.push(event_at(20)) == Some(false)
        && pops(collector, 20)
        && recorder.push(event_at(20)) == Some(true)
}

// Whether the recorder's end leaves something as it finishes.
fn finishes(recorder: Recorder) -> bool {
    let Recorder { lane, pushed: _ } = recorder;
    lane.finish().is_some()
}

// Whether they do, and the recorder can finish while the collector is there: what it pushed last is popped then.
fn are_whole(ends: (Recorder, OwnLaneOut)) -> bool {
    let (mut recorder, mut collector) = ends;
    come_out_whole(&mut recorder, &mut collector)
        && finishes(recorder)
        && collector.pop() == Some(event_at(20))
        && collector.peek().is_none()
}

#[test]
fn notes_come_out_whole(rt: HostRuntime) {
    assert!(rt; are_whole(both_ends(rt.alloc(), 20).expect(&rt, "a lane")));
}

// Whether a recorder is told that its collector is gone, and not before.
fn is_told(recorder: &mut Recorder, collector: OwnLaneOut) -> bool {
    let was_told = recorder.lane.is_abandoned();
    drop(collector);
    !was_told && recorder.lane.is_abandoned()
}

// Whether it leaves nothing then.
fn leaves_nothing(ends: (Recorder, OwnLaneOut)) -> bool {
    let (mut recorder, collector) = ends;
    recorder.push(event_at(0)) == Some(true)
        && is_told(&mut recorder, collector)
        && !finishes(recorder)
}

#[test]
fn nobody_left_to_collect(rt: HostRuntime) {
    assert!(rt; leaves_nothing(both_ends(rt.alloc(), 1).expect(&rt, "a lane")));
}
