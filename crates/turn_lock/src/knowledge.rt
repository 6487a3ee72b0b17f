// What a pass or a note knows, as plain data.
use recorder_model::Entry;
use std::collections::LinkedList;
use std::marker::Model;

/// A setting, as contracts see it. No value of it is made.
pub struct KnownSetting {}

impl Model for KnownSetting {
    ghost use Rattle.recorder_model.specs.Setting.{Setting};
    ghost use Rattle.turn_lock.specs.Settings.{no_setting};

    ghost Value = { Setting };

    ghost view = { λ _. no_setting };
}

/// What a pass or a note knows. No value of it is made.
pub struct Knowledge {
    /// Its share of the turn. One that was joined into another has none.
    pub weight: u64,
    pub setting: KnownSetting,
    pub passes: u64,
    /// Its numbers, each with how many entries it made.
    pub made: LinkedList<(u64, u64)>,
    pub seen: LinkedList<Entry>,
    /// The shorter history of the last join, until the load that follows.
    pub heard: LinkedList<Entry>,
    pub saw: bool,
    pub raised: bool,
    /// How many words it found, the last one, and the one before.
    pub found: u64,
    pub last: u64,
    pub before: u64,
    pub turns: u64,
    pub holds: bool,
    pub base: LinkedList<Entry>,
    pub base_mark: bool,
}
