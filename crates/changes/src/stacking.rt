// What a small stack does, in a file of its own: `stacked` names the struct, whose file therefore cannot cite it.
ghost use Rattle.std.specs.Prelude.{◌≡◌, ◌<◌, ◌≤◌, [], ◌∷◌, ◌++◌, length, MatchOption};
ghost use Rattle.changes.specs.Stacks.{stacked};

use crate::stack::Stack;

impl<T: Copy, const N: usize> Stack<T, N> {
    // An empty stack. What it will hold replaces the filler.
    pub fn new(filler: T) -> Self
        ensures { stacked result ≡ [] }
    {
        Stack {
            items: [filler; N],
            len: 0,
        }
    }

    pub fn len(&self) -> usize
        ensures count { result ≡ length (stacked self.now) }
        ensures within { result ≤ N }
    {
        self.as_slice().len()
    }

    pub fn push(&mut self, item: T)
        requires { length (stacked self.old) < N }
        ensures { stacked self.new ≡ stacked self.old ++ item ∷ [] }
    {
        self.items[self.len] = item;
        self.len += 1;
    }

    pub fn pop(&mut self) -> Option<T>
        ensures { MatchOption result ((stacked self.old ≡ []) × (stacked self.new ≡ [])) (λ item. stacked self.old ≡ stacked self.new ++ item ∷ []) }
    {
        let last = self.len.checked_sub(1)?;
        self.len = last;
        Some(self.items[last])
    }

    pub fn as_slice(&self) -> &[T]
        ensures items { result.now ≡ stacked self.now }
        ensures within { length result.now ≤ N }
    {
        &self.items[..self.len]
    }
}
