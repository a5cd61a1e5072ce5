ghost use Rattle.std.specs.Prelude.{◌≡◌, IfOk, false};
ghost use Rattle.clap.specs.Words.{app_of};
ghost use Rattle.clap.specs.declared.builder.Command.TheViews.{out-Command};
ghost use Rattle.commands.specs.Syntax.{bare_app, build_app, build_files_app, tuples_app, vfb_app};

use clap::{Arg, ArgAction, Command};
use std::alloc::{AllocError, Global};

/// `tuples OUT DRAWING...`
fn tuples_command<'a>(alloc: Global) -> Result<Command<'a>, AllocError>
    ensures app { IfOk result (λ command. app_of command ≡ tuples_app) }
    ensures local { IfOk result (λ command. (out-Command command).has_globals ≡ false) }
{
    let out = Arg::new(alloc, "out").required(true);
    let drawings = Arg::new(alloc, "drawings")
        .required(true)
        .action(ArgAction::Append);
    Command::new(alloc, "tuples")
        .disable_help_flag(true)
        .arg(out)?
        .arg(drawings)
}

/// `build DESIGNSPACE OUT`
fn build_files_command<'a>(alloc: Global) -> Result<Command<'a>, AllocError>
    ensures app { IfOk result (λ command. app_of command ≡ build_files_app) }
    ensures local { IfOk result (λ command. (out-Command command).has_globals ≡ false) }
{
    let design = Arg::new(alloc, "design").required(true);
    let out = Arg::new(alloc, "out").required(true);
    Command::new(alloc, "build")
        .disable_help_flag(true)
        .arg(design)?
        .arg(out)
}

/// `build DESIGNSPACE OUT [--filter F]...`
fn build_command<'a>(alloc: Global) -> Result<Command<'a>, AllocError>
    ensures app { IfOk result (λ command. app_of command ≡ build_app) }
    ensures local { IfOk result (λ command. (out-Command command).has_globals ≡ false) }
{
    let filter = Arg::new(alloc, "filter")
        .long("filter")
        .action(ArgAction::Append);
    build_files_command(alloc)?.arg(filter)
}

/// The program without its subcommands.
fn bare_command<'a>(alloc: Global) -> Command<'a>
    ensures { app_of result ≡ bare_app }
{
    Command::new(alloc, "vfb")
        .disable_help_flag(true)
        .disable_help_subcommand(true)
        .subcommand_required(true)
}

/// The program with its subcommands.
pub(crate) fn vfb_command<'a>(alloc: Global) -> Result<Command<'a>, AllocError>
    ensures { IfOk result (λ command. app_of command ≡ vfb_app) }
{
    let tuples = tuples_command(alloc)?;
    let build = build_command(alloc)?;
    bare_command(alloc).subcommand(tuples)?.subcommand(build)
}
