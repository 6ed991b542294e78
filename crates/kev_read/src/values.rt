//! The values of one key.

ghost use Rattle.std.specs.Prelude.{◌≡◌};
ghost use Rattle.std.specs.Iterator.{YieldsFirstRef, item_count};
ghost use Rattle.kev_read.specs.Pairs as spec;

use crate::pairs::Pairs;
use std::iter::FusedIterator;
use std::marker::Model;

/// The values of one key, in the order of the query; contracts see those that are left.
#[derive(Drop)]
pub struct Values<'a, 'k> {
    pairs: &'a Pairs,
    // The next pair to examine.
    index: usize,
    key: &'k str,
}

impl<'a, 'k> Model for Values<'a, 'k> {
    ghost use Rattle.std.specs.Prelude.{List, drop};
    ghost use Rattle.text_model.specs.Texts.{Text};
    ghost use Rattle.kev_read.specs.Pairs.{all_of};

    ghost Value = { List Text };

    ghost view = { λ values. all_of (drop values.index values.pairs.now) values.key.now };
}

impl<'a, 'k> Values<'a, 'k> {
    pub(crate) fn new(pairs: &'a Pairs, key: &'k str) -> Values<'a, 'k>
        ensures { result ≡ spec.all_of pairs.now key.now }
    {
        Values {
            pairs,
            index: 0,
            key,
        }
    }
}

impl<'a, 'k> Iterator for Values<'a, 'k> {
    type Item = &'a str;

    ghost next_gives = { YieldsFirstRef (λ values. values) };

    ghost remaining = { item_count (λ values. values) };

    fn next(&mut self) -> Option<&'a str> {
        while self.index < self.pairs.len() {
            let pair = self.pairs.at(self.index);
            self.index += 1;
            if pair.key == self.key {
                return Some(pair.value);
            }
        }
        None
    }
}

impl<'a, 'k> FusedIterator for Values<'a, 'k> {}
