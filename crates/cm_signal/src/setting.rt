// A board and its signals.

use crate::signals::Signals;
use cm_board::board::BoardDesc;
use std::marker::Model;

/// What all lines of a job have in common: a board, and the signals over it.
#[derive(Drop)]
pub struct Setting<'a> {
    pub board: &'a BoardDesc,
    pub signals: &'a Signals,
}

impl<'a> Model for Setting<'a> {
    ghost use Rattle.cm_signal.specs.Setting.{Setting as SettingText};

    ghost Value = { SettingText };

    ghost use Rattle.cm_signal.specs.SettingView.{setting_text};

    ghost view = { setting_text };
}
