// A statement that asks for what belongs to one name.
ghost use Rattle.std.specs.Prelude.{[], ◌∷◌, IfOk, IfErr};
ghost use Rattle.sqlite.specs.declared.types.Value.TheVariants.{Text};
ghost use Rattle.sqlite.specs.Held.{state};
ghost use Rattle.sqlite.specs.State.{HasCleanDisk, Survives, Shown, FailsToQuery, CommitsShowing};

use sqlite::{Alter, Connection, Error, Row as Columns, params};

// What the statement shows for this text.
pub(crate) fn ask<S: Alter>(
    conn: &mut Connection<S>,
    sql: &str,
    text: &str,
) -> Result<Vec<Columns>, Error>
    ensures ok { HasCleanDisk (state S.Store conn.new) → IfOk result (λ rows.
        Shown sql.now (Text text.now ∷ []) (state S.Store conn.old) (state S.Store conn.new) rows.items) }
    ensures err { HasCleanDisk (state S.Store conn.new) → IfErr result (
        FailsToQuery sql.now (Text text.now ∷ []) (state S.Store conn.old) (state S.Store conn.new)) }
    ensures survives { Survives (state S.Store conn.old) (state S.Store conn.new)
        (CommitsShowing sql.now (Text text.now ∷ []) (state S.Store conn.old)) }
{
    conn.query_all(sql, params![text])
}
