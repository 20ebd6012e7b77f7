// The command: offers from standard input, answers and the report to standard output.
#![tactic(auto)]

use command_loop::Ended;

// Says on standard error what failed: the command has no exit status to give.
fn tell(rt: &HostRuntime, ended: Ended) {
    if let Some(error) = ended.reading {
        command_streams::tell(
            rt,
            b"silkcliff: reading failed (errno ",
            u64::from(error.number),
            b"); the report is of what came before\n",
        );
    }
    if let Some(error) = ended.writing {
        command_streams::tell(
            rt,
            b"silkcliff: writing failed (errno ",
            u64::from(error.number),
            b")\n",
        );
    }
}

fn main(rt: HostRuntime) {
    tell(&rt, command_loop::run(&rt));
}
