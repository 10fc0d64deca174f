// A stack in an array, of at most N elements. The open blocks of a script are kept in such stacks, by the scan and by the compiler.
ghost use Rattle.std.specs.Prelude.{◌≡◌, ◌<◌, ◌≤◌, ◌∷◌, [], IfNone, IfSome, eqb, leb, length, reverse};

use std::marker::Model;

// The first `depth` elements of the array, the top last. The project has no heap, so this type keeps an array and a length, and its callers see
// neither.
#[derive(Drop)]
pub struct ArrayStack<T: Copy, const N: usize> {
    items: [T; N],
    depth: usize,
}

// Clauses see the elements, top first.
impl<T: Copy, const N: usize> Model for ArrayStack<T, N> {
    ghost use Rattle.std.specs.Prelude.{List, ◌≤◌};

    ghost Value = { List T };

    ghost use Rattle.lists.specs.Stack.{top_first};

    ghost view = { λ s. top_first s.depth s.items };

    ghost invariant = { λ s. s.depth ≤ N };
}

impl<T: Copy, const N: usize> ArrayStack<T, N> {
    // The array has to hold some element at every place, so it is filled with one that no caller sees.
    pub fn new(filler: T) -> Self
        ensures { result ≡ [] }
    {
        ArrayStack {
            items: [filler; N],
            depth: 0,
        }
    }

    // The top last.
    pub fn as_slice(&self) -> &[T]
        ensures { reverse result.now ≡ self.now }
    {
        &self.items[..self.depth]
    }

    pub fn is_empty(&self) -> bool
        ensures { result ≡ eqb (length self.now) 0 }
    {
        self.depth == 0
    }

    pub fn is_full(&self) -> bool
        ensures { result ≡ leb N (length self.now) }
    {
        N <= self.depth
    }

    pub fn push(&mut self, item: T)
        requires { length self.old < N }
        ensures { self.new ≡ item ∷ self.old }
    {
        self.items[self.depth] = item;
        self.depth += 1;
    }

    pub fn pop(&mut self) -> Option<T>
        ensures fits { length self.old ≤ N }
        ensures none { IfNone result ((self.old ≡ []) × (self.new ≡ [])) }
        ensures some { IfSome result (λ item. self.old ≡ item ∷ self.new) }
    {
        if self.depth == 0 {
            return None;
        }
        self.depth -= 1;
        Some(self.items[self.depth])
    }
}
