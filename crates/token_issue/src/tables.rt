//! The lists of tokens that are kept from call to call.

ghost use Rattle.std.specs.Prelude.{◌≡◌, ◌≤◌, true, false, [], length, is_some, IfOk, IfSome, OnOk, OnErr};
ghost use Rattle.token_issue.specs.Lists.{tokens_from};
ghost use Rattle.token_issue.specs.Kept.{is_kept, front, new_front};

use crate::table_key::TableKey;
use lru::LruCache;
use paygo_spec::Memory;
use std::alloc::Global;
use std::marker::{Model, PhantomData};
use std::num::NonZeroUsize;
use token_chain::Mixer;

/// The lists of tokens that are kept, at most eight, of the chains of one mixer. They are seen as the keys of the lists,
/// the most recently used first. What is kept never changes an answer.
pub struct Tables<M: Mixer> {
    cache: LruCache<TableKey, Vec<u32>>,
    mixer: PhantomData<M>,
}

impl<M: Mixer> Model for Tables<M> {
    ghost use Rattle.std.specs.Prelude.{◌≡◌, List};
    ghost use Rattle.std.specs.Map.{keys_of};
    ghost use Rattle.token_issue.specs.declared.table_key.TableKey.{TableKey as Key};

    ghost Value = { List Key };

    ghost use Rattle.token_issue.specs.Kept.{AreTables};

    ghost view = { λ t. keys_of t.cache.entries };

    ghost invariant = { λ t. (t.cache.cap ≡ 8) × AreTables M.next t.cache.entries };
}

impl<M: Mixer> Drop for Tables<M> {
    fn drop(self) {
        let Tables { cache: _, mixer: _ } = self;
    }
}

impl<M: Mixer> Tables<M> {
    /// Tables that keep nothing. It takes memory.
    pub fn new(alloc: Global) -> Result<Tables<M>, Memory>
        ensures { IfOk result (λ tables. tables ≡ []) }
    {
        match LruCache::new(alloc, NonZeroUsize::new(8).unwrap()) {
            Ok(cache) => Ok(Tables {
                cache,
                mixer: PhantomData,
            }),
            Err(_) => Err(Memory),
        }
    }

    /// How many lists are kept, from 0 to 8.
    pub fn kept(&self) -> usize
        ensures kept { result ≡ length self.now }
        ensures most { result ≤ 8 }
    {
        self.cache.len()
    }

    /// The tokens of a key, if they are kept.
    pub(crate) fn tokens(&self, table: &TableKey) -> Option<&[u32]>
        ensures kept { is_some result ≡ is_kept table.now self.now }
        ensures tokens { IfSome result (λ tokens.
            tokens.now ≡ tokens_from (M.next table.now.key) table.now.code table.now.counts) }
    {
        match self.cache.peek(table) {
            Some(tokens) => Some(tokens.as_slice()),
            None => None,
        }
    }

    /// Brings the list of a key to the front, where it is kept.
    pub(crate) fn bring_to_front(&mut self, table: &TableKey)
        requires { is_kept table.now self.old ≡ true }
        ensures { self.new ≡ front table.now self.old }
    {
        self.cache.promote(table);
    }

    /// Keeps a new list in front, in place of the last of eight.
    ///
    /// # Errors
    ///
    /// `Memory` where the cache found none: all stays as it was, and the list is let go.
    pub(crate) fn keep(&mut self, table: TableKey, tokens: Vec<u32>) -> Result<(), Memory>
        requires new { is_kept table self.old ≡ false }
        requires tokens { tokens.items ≡ tokens_from (M.next table.key) table.code table.counts }
        ensures kept { OnOk result (self.new ≡ new_front table self.old) }
        ensures memory { OnErr result (self.new ≡ self.old) }
    {
        match self.cache.put(table, tokens) {
            Ok(_) => Ok(()),
            Err(_) => Err(Memory),
        }
    }
}
