//! What holds of the definitions.
ghost use Rattle.paint_script.specs.Laws.{EachScriptIsReadBack};

/// Each list of lines that the grammar of a version can spell is read back from its spelling, with its version.
pub fn each_script_is_read_back()
    ensures { EachScriptIsReadBack }
{}
