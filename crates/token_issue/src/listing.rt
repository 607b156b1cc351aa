//! All tokens of a chain, count by count.

ghost use Rattle.std.specs.Prelude.{◌≡◌, ◌<◌, ◌^◌, IfOk};
ghost use Rattle.token_issue.specs.Lists.{tokens_from};

use crate::table_key::TableKey;
use paygo_spec::Memory;
use std::alloc::Global;
use token_chain::{Mixer, Walk};

/// The tokens of the counts from 0 to below those of the table. Each is one step up the chain from the one before.
#[tactic(auto, using(crate::proofs::Listed::values_none, crate::proofs::Listed::values_more))]
pub(crate) fn tokens_of<M: Mixer>(alloc: Global, table: &TableKey) -> Result<Vec<u32>, Memory>
    requires { table.now.code < 10 ^ 9 }
    ensures { IfOk result (λ tokens.
        tokens.items ≡ tokens_from (M.next table.now.key) table.now.code table.now.counts) }
{
    let mut walk = Walk::<M>::new(&table.key, table.code, 0);
    let Ok(mut tokens) = Vec::with_capacity(alloc, usize::from(table.counts)) else {
        return Err(Memory);
    };
    'counts: for count in 0..table.counts {
        if tokens.push(walk.token()).is_err() {
            return Err(Memory);
        }
        walk.advance();
    }
    Ok(tokens)
}
