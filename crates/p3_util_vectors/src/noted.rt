//! A list of numbers that notes the places of each call, in order.

use p3_util::places::{Cells, Places};

/// Numbers, and the calls that changed them, as long as there is room for notes.
#[derive(Drop)]
pub struct Noted {
    pub items: Vec<u64>,
    /// The two places of each exchange.
    pub exchanges: Vec<(usize, usize)>,
    /// The place of each write.
    pub puts: Vec<usize>,
}

impl Places for Noted {
    type Item = u64;

    ghost items = { λ n. n.items.items };

    ghost same_holder = { λ n a b. Unit {0} };

    fn len(&self) -> usize {
        self.items.len()
    }

    fn exchange(&mut self, i: usize, j: usize) {
        self.items.swap(i, j);
        if self.exchanges.len() < self.exchanges.capacity() {
            let _ = self.exchanges.push((i, j));
        }
    }

    ghost same_holder_refl = { λ a. tt };

    ghost same_holder_trans = { λ m n all a b c p q e. tt };
}

impl Cells for Noted {
    type Item = u64;

    ghost items = { λ n. n.items.items };

    ghost same_holder = { λ n a b. Unit {0} };

    fn len(&self) -> usize {
        self.items.len()
    }

    fn put(&mut self, i: usize, v: u64) {
        self.items[i] = v;
        if self.puts.len() < self.puts.capacity() {
            let _ = self.puts.push(i);
        }
    }

    ghost same_holder_refl = { λ a. tt };

    ghost same_holder_trans = { λ m n all a b c p q e. tt };
}
