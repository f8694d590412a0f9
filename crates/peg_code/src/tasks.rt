//! Emits the code of a core form, with a stack of pending tasks in place of recursion.
ghost use Rattle.std.specs.Prelude.{◌≡◌, ◌+◌, ◌<◌, ◌≤◌, [], ◌∷◌, ◌++◌, length, OnOk};
ghost use Rattle.peg_core.specs.Layout.{form_at};
ghost use Rattle.peg_code.specs.Code.{size};
ghost use Rattle.peg_code.specs.Compiled.{max_instructions};
ghost use Rattle.peg_code.specs.Sizes.{AreFormSizes, IsTight};
ghost use Rattle.peg_code.specs.Tasks.{AddsTasks, code_after, DoesTask, TaskFits};
ghost use Rattle.peg_code.specs.declared.instr.Instr.TheVariants.{Choice, Commit};
ghost use Rattle.peg_code.specs.declared.tasks.Task.TheVariants.{Form, Emit};

use crate::Instr;
use crate::packed_code::PackedCode;
use crate::sizes::FormSize;
use peg_core::{Core, Node};
use std::alloc::{AllocError, Global};

/// A pending task: to emit the code of the form with a number, or to emit an instruction.
#[derive(Clone, Copy)]
pub(crate) enum Task {
    Form(u32),
    Emit(Instr),
}

/// Appends the code of a form to other code. Takes time linear in the length of the form's code. The only error is a
/// failed allocation.
pub(crate) fn emit(
    alloc: Global,
    core: &Core,
    form_sizes: &[FormSize],
    number: u32,
    code: &mut PackedCode,
) -> Result<(), AllocError>
    requires form_sizes { AreFormSizes core.now.forms form_sizes.now }
    requires within { number < length core.now.forms }
    requires room { length code.old + size (form_at core.now.forms number) ≤ max_instructions }
    ensures { OnOk result (code.new ≡ code_after core.now.forms code.old (Form number)) }
{
    let mut tasks = Vec::new(alloc);
    tasks.push(Task::Form(number))?;
    'lays: while let Some(task) = tasks.pop() {
        do_task(core, form_sizes, task, code, &mut tasks)?;
    }
    Ok(())
}

// Does one task. A form pushes the tasks for its parts.
fn do_task(
    core: &Core,
    form_sizes: &[FormSize],
    task: Task,
    code: &mut PackedCode,
    tasks: &mut Vec<Task>,
) -> Result<(), AllocError>
    requires form_sizes { AreFormSizes core.now.forms form_sizes.now }
    requires fits { TaskFits (length core.now.forms) task }
    requires room { length (code_after core.now.forms code.old task) ≤ max_instructions }
    ensures { OnOk result (DoesTask core.now.forms task code.old tasks.old.items code.new tasks.new.items) }
{
    match task {
        Task::Emit(instr) => code.push(instr),
        Task::Form(number) => {
            let form = form_sizes[number as usize].form;
            add_tasks(core, form_sizes, form, code.len() as u32, tasks)
        }
    }
}

// Pushes the tasks of a form whose code starts at `pc`. The task to be done first is pushed last.
fn add_tasks(
    core: &Core,
    form_sizes: &[FormSize],
    number: u32,
    pc: u32,
    tasks: &mut Vec<Task>,
) -> Result<(), AllocError>
    requires form_sizes { AreFormSizes core.now.forms form_sizes.now }
    requires within { number < length core.now.forms }
    requires tight { IsTight (form_at core.now.forms number) }
    requires room { pc + size (form_at core.now.forms number) ≤ max_instructions }
    ensures { OnOk result (AddsTasks core.now.forms pc (Form number) tasks.old.items tasks.new.items) }
{
    match core.node(number) {
        Node::Empty => Ok(()),
        Node::Test { set, terminal } => add(tasks, &[Task::Emit(Instr::Test { set, terminal })]),
        Node::Rule(rule) => add(tasks, &[Task::Emit(Instr::Call(rule))]),
        Node::Seq(first, rest) => add(tasks, &[Task::Form(rest), Task::Form(first)]),
        Node::Choice(first, rest) => {
            let second = pc + form_sizes[first as usize].size + 2;
            let end = second + form_sizes[rest as usize].size;
            add_choice(tasks, first, rest, second, end)
        }
        Node::Star(part) => {
            let end = pc + form_sizes[part as usize].size + 2;
            add_round(tasks, part, end, Instr::Commit(pc))
        }
        Node::Not(part) => {
            let end = pc + form_sizes[part as usize].size + 2;
            add_round(tasks, part, end, Instr::FailTwice)
        }
    }
}

// The tasks of a choice. The code of the second alternative starts at `second`, and the choice ends at `end`.
fn add_choice(
    tasks: &mut Vec<Task>,
    first: u32,
    rest: u32,
    second: u32,
    end: u32,
) -> Result<(), AllocError>
    ensures { OnOk result (tasks.new.items ≡ tasks.old.items
        ++ (Form rest ∷ Emit (Commit end) ∷ Form first ∷ Emit (Choice second) ∷ [])) }
{
    add(
        tasks,
        &[
            Task::Form(rest),
            Task::Emit(Instr::Commit(end)),
            Task::Form(first),
            Task::Emit(Instr::Choice(second)),
        ],
    )
}

// The tasks of a star or a predicate: its part between the `Choice` and the instruction `last`.
fn add_round(tasks: &mut Vec<Task>, part: u32, end: u32, last: Instr) -> Result<(), AllocError>
    ensures { OnOk result (tasks.new.items ≡ tasks.old.items ++ (Emit last ∷ Form part ∷ Emit (Choice end) ∷ [])) }
{
    add(
        tasks,
        &[
            Task::Emit(last),
            Task::Form(part),
            Task::Emit(Instr::Choice(end)),
        ],
    )
}

fn add(tasks: &mut Vec<Task>, more: &[Task]) -> Result<(), AllocError>
    ensures { OnOk result (tasks.new.items ≡ tasks.old.items ++ more.now) }
{
    tasks.extend_from_slice(more)
}
