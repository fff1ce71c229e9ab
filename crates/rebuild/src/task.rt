// The steps of building, put off on a stack.
use changes::Stack;

// So many places from `lo` on: to be built, or to have their root written where the two halves are built. A loop goes over a stack
// of these, and no function calls itself, so that a deeper tree takes no more of the program's stack. The two numbers stay apart:
// a `Range` is no `Copy`, and a struct of the two would be taken apart in each arm.
#[derive(Clone, Copy)]
pub enum Task {
    Build { lo: usize, count: usize },
    Close { lo: usize, count: usize },
}

// Room for the largest tree: each halving of a range leaves two tasks more.
pub type Tasks = Stack<Task, 32>;
