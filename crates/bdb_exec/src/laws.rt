//! What holds of tables that plans are run over.
ghost use Rattle.bdb_exec.specs.Based.{TablesShowBase};

/// Tables that have a valid base with its worlds show it to plans.
pub fn tables_show_base()
    ensures { TablesShowBase }
{}
