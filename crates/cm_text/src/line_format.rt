// How a command's samples are reported, by the scales of its list entries.

use crate::line::put_line;
use crate::scales::scales_of;
use cm_base::short::Short;
use cm_base::transfer::NoMemory;
use cm_board::board::Sub;
use cm_expand::plan::Plan;
use cm_expand::rule::is_raw;
use cm_sample::scale::Scale;
use std::alloc::Global;
use std::marker::Model;

/// How a command's samples are reported: its subdevice and channel list, whether it asks for raw words,
/// and the scale of each list entry.
#[derive(Drop)]
pub(crate) struct LineFormat<'a> {
    sub: &'a Sub,
    list: &'a [u32],
    raw: bool,
    scales: Vec<Scale>,
}

impl<'a> Model for LineFormat<'a> {
    ghost use Rattle.cm_text.specs.LineFormat.{IsLineFormat, format_view};
    ghost use Rattle.cm_text.specs.Format.{Format};

    ghost Value = { Format };

    ghost view = { format_view };

    ghost invariant = { IsLineFormat };
}

impl<'a> LineFormat<'a> {
    ghost use Rattle.std.specs.Prelude.{◌≡◌, ◌<◌, ◌++◌, length, IfOk, OnOk};
    ghost use Rattle.cm_expand.specs.PlanView.{plan_text};
    ghost use Rattle.cm_text.specs.Format.{IsFormat, IsSample, format_of, sample_line};

    /// That of a plan's command.
    pub fn new(alloc: Global, plan: Plan<'a>) -> Result<LineFormat<'a>, NoMemory>
        requires { IsFormat (format_of (plan_text plan)) }
        ensures { IfOk result (λ f. f ≡ format_of (plan_text plan.entry)) }
    {
        let sub = plan.sub();
        let cmd = plan.command();
        let list: &[u32] = &cmd.list;
        Ok(LineFormat {
            sub,
            list,
            raw: is_raw(cmd.flags),
            scales: scales_of(alloc, sub, list)?,
        })
    }

    /// How many entries the channel list has.
    #[inline(always)]
    pub fn entries(&self) -> usize
        ensures count { result ≡ length self.now.list }
        ensures some { 0 < result }
    {
        self.list.len()
    }

    /// Appends the line of a word of the list entry `index`.
    pub fn put(&self, text: &mut Vec<u8>, index: usize, word: u32) -> Result<(), NoMemory>
        requires index { index < length self.now.list }
        requires code { IsSample self.now index word }
        ensures { OnOk result (text.new.items ≡ text.old.items ++ sample_line self.now index word) }
    {
        let mut line = Short::new();
        put_line(&mut line, &self.scales[index], self.raw, index, word);
        line.append_to(text)
    }
}
