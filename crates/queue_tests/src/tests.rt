ghost use Rattle.std.specs.Prelude.{◌≡◌, ◌≤◌, length};

use super::*;
use queue::{heap, indexed};
use std::test::Fail;

fn event(time: u64, number: u16) -> Event {
    Event { time, number }
}

fn cost(cost: u32, place: u32) -> CostEntry
    ensures { result.place ≡ place }
{
    CostEntry { cost, place }
}

fn near(steps: u32, place: u32) -> NearEntry {
    NearEntry {
        steps,
        cost: 1,
        place,
    }
}

fn node(tag: u32) -> Node {
    Node {
        tag,
        near: near(0, 0),
        ..Node::default()
    }
}

// The number of the least event among n, or 0.
fn least_event(slots: &[Event], n: usize) -> u16
    requires { n ≤ length slots.now }
{
    heap::head::<Calendar, Event>(slots, n).map_or(0, |e| e.number)
}

#[test]
fn events_leave_in_order(rt: HostRuntime) {
    let mut slots = [event(0, 0); 5];
    heap::insert::<Calendar, Event>(&mut slots, 0, event(70, 1));
    heap::insert::<Calendar, Event>(&mut slots, 1, event(50_000_000_000, 2));
    heap::insert::<Calendar, Event>(&mut slots, 2, event(30, 4));
    heap::insert::<Calendar, Event>(&mut slots, 3, event(30, 3));
    let deepest = heap::insert::<Calendar, Event>(&mut slots, 4, event(10, 5));
    assert_eq!(rt; deepest, 4);
    assert_eq!(rt; least_event(&slots, 5), 5);
    heap::remove_at::<Calendar, Event>(&mut slots, 5, 0);
    assert_eq!(rt; least_event(&slots, 4), 3);
    heap::remove_at::<Calendar, Event>(&mut slots, 4, 0);
    assert_eq!(rt; least_event(&slots, 3), 4);
    heap::replace_at::<Calendar, Event>(&mut slots, 3, 0, event(80, 6));
    assert_eq!(rt; least_event(&slots, 3), 1);
    heap::remove_at::<Calendar, Event>(&mut slots, 3, 0);
    assert_eq!(rt; least_event(&slots, 2), 6);
    heap::remove_at::<Calendar, Event>(&mut slots, 2, 0);
    assert_eq!(rt; least_event(&slots, 1), 2);
    assert_eq!(rt; least_event(&slots, 0), 0);
}

// The place of the least entry of the low queue, or 99.
fn least_low(slots: &[Node], n: usize) -> u32
    requires { n ≤ length slots.now }
{
    heap::head::<Low, Node>(slots, n).map_or(99, |e| e.place)
}

// The place of the least entry of the near queue, or 99.
fn least_near(slots: &[Node], n: usize) -> u32
    requires { n ≤ length slots.now }
{
    heap::head::<Near, Node>(slots, n).map_or(99, |e| e.place)
}

#[test]
fn two_queues_share_records(rt: HostRuntime) {
    let mut slots = [node(5), node(6), node(7)];
    heap::insert::<Low, Node>(&mut slots, 0, cost(40, 2));
    heap::insert::<Near, Node>(&mut slots, 0, near(1, 2));
    heap::insert::<Low, Node>(&mut slots, 1, cost(20, 1));
    heap::insert::<Near, Node>(&mut slots, 1, near(3, 1));
    heap::insert::<Low, Node>(&mut slots, 2, cost(20, 0));
    assert_eq!(rt; least_low(&slots, 3), 0);
    assert_eq!(rt; least_near(&slots, 2), 2);
    heap::remove_at::<Near, Node>(&mut slots, 2, 0);
    assert_eq!(rt; least_near(&slots, 1), 1);
    assert_eq!(rt; least_low(&slots, 3), 0);
    heap::replace_at::<Low, Node>(&mut slots, 3, 0, cost(90, 0));
    assert_eq!(rt; least_low(&slots, 3), 1);
    assert_eq!(rt; slots[0].tag, 5);
    assert_eq!(rt; slots[1].tag, 6);
    assert_eq!(rt; slots[2].tag, 7);
}

#[test]
fn homes_note_their_slots(rt: HostRuntime) -> Result<(), Fail> {
    let mut slots = [node(0), node(1), node(2), node(3)];
    indexed::insert::<Low, Node>(&mut slots, 0, cost(40, 2));
    assert_eq!(rt; slots[2].low_slot, 0);
    indexed::insert::<Low, Node>(&mut slots, 1, cost(60, 3));
    assert_eq!(rt; slots[3].low_slot, 1);
    indexed::replace::<Low, Node>(&mut slots, 2, 3, cost(10, 3));
    assert_eq!(rt; slots[3].low_slot, 0);
    assert_eq!(rt; slots[2].low_slot, 1);
    indexed::remove::<Low, Node>(&mut slots, 2, 3);
    assert_eq!(rt; slots[2].low_slot, 0);
    assert_eq!(rt; least_low(&slots, 1), 2);
    Ok(())
}
