// What holds of all tables, so that reading has one right answer. Nothing runs.
ghost use Rattle.std.specs.Prelude.{◌≡◌, Ok, Err};
ghost use Rattle.addr_reading.specs.Gives.{IsDecided};
ghost use Rattle.addr_tables.specs.Faults.{rows_read};
ghost use Rattle.addr_tables.specs.Rows.{AreTexts, StandFor};
ghost use Rattle.addr_tables.specs.declared.error.TableErr.{TableErr as Fault};
ghost use Rattle.addr_tables.specs.declared.error.TableErr.TheVariants as faults;
ghost use Rattle.addr_tables.specs.declared.rows.Rows.{Rows as RowsOf};
ghost use Rattle.addr_tables.specs.declared.rows.Tables.{Tables as TablesOf};

/// Tables stand for one list of rows or reading them has a first fault, and never both.
pub fn table_laws()
    ensures either { (tables : TablesOf) → IsDecided faults.NoMemory (rows_read tables) }
    ensures read { (tables : TablesOf) (rows : RowsOf) → StandFor tables rows → rows_read tables ≡ Ok rows }
    ensures stand { (tables : TablesOf) (rows : RowsOf) → AreTexts tables → rows_read tables ≡ Ok rows
        → StandFor tables rows }
    ensures apart { (tables : TablesOf) (rows : RowsOf) (e : Fault) → StandFor tables rows
        → rows_read tables ≡ Err e → ⊥ }
{}
