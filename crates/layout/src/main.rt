// The layout tool. Its verdict goes to descriptor 3, and bin/layout turns that into the exit status.
#![tactic(auto)]

fn main(rt: HostRuntime) {
    layout_tool::run_program(&rt, &mut rt.stdout(), &mut rt.stderr());
}
