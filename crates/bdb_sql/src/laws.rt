//! What holds of files, each law as the contract of a function that does nothing.
ghost use Rattle.bdb_sql.specs.Content.{HasOneContent, LeavesOneContent};

/// A file has the rows of one choice of tables at most.
#[tactic(auto, using(crate::proofs::ContentLemmas::one_content))]
pub fn a_file_has_one_content()
    ensures { HasOneContent }
{}

/// What a crash leaves has the rows of one choice of tables at most. So where it leaves some rows it leaves these and no others.
pub fn what_a_crash_leaves_has_one_content()
    ensures { LeavesOneContent }
{}
