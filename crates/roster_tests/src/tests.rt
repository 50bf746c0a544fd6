ghost use Rattle.std.specs.Prelude.{◌^◌, ◌≤◌, length};

use super::*;
use roster::check::check;

fn cost(cost: u32, place: u32) -> CostEntry {
    CostEntry { cost, place }
}

// A node that plans a cost, with an entry in its low slot and a note.
fn node(plan: u32, low: CostEntry, low_slot: u16) -> Node {
    Node {
        plan,
        low,
        low_slot,
        ..Node::default()
    }
}

// What the check answers, and 99 for a table that is not right.
fn checked(slots: &[Node]) -> usize
    requires { length slots.now ≤ 2 ^ 16 }
{
    check::<Low, Node, Plans>(&Plans, slots).unwrap_or(99)
}

#[test]
fn a_right_table_counts_its_plans(rt: HostRuntime) {
    assert_eq!(rt; checked(&[]), 0);
    assert_eq!(rt;
        checked(&[node(0, cost(7, 7), 9), node(0, cost(8, 8), 9)]),
        0
    );
    let slots = [
        node(0, cost(3, 2), 9),
        node(5, cost(5, 1), 1),
        node(3, cost(4, 3), 0),
        node(4, cost(9, 9), 2),
    ];
    assert_eq!(rt; checked(&slots), 3);
}

#[test]
fn a_wrong_table_is_refused(rt: HostRuntime) {
    let (first, second) = (cost(3, 2), cost(5, 1));
    assert_eq!(rt;
        checked(&[node(0, first, 9), node(5, second, 1), node(3, first, 0)]),
        2
    );
    let wrong = [
        // The order turned.
        [node(0, second, 9), node(5, first, 0), node(3, first, 1)],
        // A wrong cost.
        [
            node(0, cost(4, 2), 9),
            node(5, second, 1),
            node(3, first, 0),
        ],
        // A wrong note.
        [node(0, first, 9), node(5, second, 2), node(3, first, 0)],
        // A home past the last record.
        [node(0, first, 9), node(5, cost(5, 3), 1), node(3, first, 0)],
        // A home with no plan.
        [node(0, first, 9), node(5, cost(5, 0), 1), node(3, first, 0)],
        // A plan with no entry.
        [node(0, first, 9), node(5, first, 0), node(3, first, 0)],
    ];
    for table in &wrong {
        assert_eq!(rt; checked(table), 99);
    }
}
