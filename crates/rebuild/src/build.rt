// Building the balanced shape over slots in order. A range of them is two numbers, as a task has it.
ghost use Rattle.std.specs.Prelude.{◌≡◌, ℕ, ◌+◌, ◌-◌, ◌/◌, ◌^◌, ◌<◌, ◌≤◌, List, [], ◌∷◌, ◌++◌, length};
ghost use Rattle.changes.specs.Stacks.{stacked};
ghost use Rattle.rebuild.specs.Shapes.{root_of, Labelled, Buildable, Rebuilt, Closable, Closed};

use crate::task::{Task, Tasks};
use changes::place::place;
use nodes::read::read_at;
use nodes::{Element, Node};

// The slot at the root of the balanced shape over a range of places.
fn root_of(order: &[usize], lo: usize, count: usize) -> Option<usize>
    requires { lo + count ≤ length order.now }
    ensures { result ≡ root_of order.now lo count }
{
    order[lo..lo + count].get(count / 2).copied()
}

// Writes the root of a range whose halves are built.
fn close<E: Element>(nodes: &mut [Node<E, E::Sum>], order: &[usize], lo: usize, count: usize)
    requires { Closable E.empty E.whole nodes.old order.now lo count }
    ensures { Closed E.empty E.whole nodes.old nodes.new order.now lo count }
{
    let before = count / 2;
    let after = count - before - 1;
    let slot = read_at(order, lo + before);
    let left = root_of(order, lo, before);
    let right = root_of(order, lo + before + 1, after);
    let node = read_at(nodes, slot);
    place::<E>(nodes, slot, node.item, left, right);
}

// Puts off the root of a range until its halves are built.
fn split(tasks: &mut Tasks, lo: usize, count: usize)
    requires some { 0 < count }
    requires fits { lo + count < 2 ^ 64 }
    requires room { length (stacked tasks.old) + 3 ≤ 32 }
    ensures { stacked tasks.new ≡ stacked tasks.old ++ (Task.Close lo count ∷ (Task.Build (lo + count / 2 + 1) (count - count / 2 - 1) ∷ (Task.Build lo (count / 2) ∷ []))) }
{
    let before = count / 2;
    tasks.push(Task::Close { lo, count });
    tasks.push(Task::Build {
        lo: lo + before + 1,
        count: count - before - 1,
    });
    tasks.push(Task::Build { lo, count: before });
}

// Links the nodes in these slots to the balanced tree that has them in this order, and returns its root.
pub fn build<E: Element>(nodes: &mut [Node<E, E::Sum>], order: &[usize]) -> Option<usize>
    requires { Buildable nodes.old order.now }
    ensures { (list : List E) → length list ≡ length order.now → Labelled nodes.old order.now list → Rebuilt E.empty E.whole nodes.old nodes.new order.now list result }
{
    let all = Task::Build {
        lo: 0,
        count: order.len(),
    };
    let mut tasks = Tasks::new(all);
    tasks.push(all);
    while let Some(task) = tasks.pop() {
        match task {
            Task::Build { count: 0, .. } => {}
            Task::Build { lo, count } => split(&mut tasks, lo, count),
            Task::Close { lo, count } => close::<E>(nodes, order, lo, count),
        }
    }
    root_of(order, 0, order.len())
}
