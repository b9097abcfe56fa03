// Lists the operations in the A64 code on standard input.
#![tactic(auto)]

fn main(rt: HostRuntime) -> anyhow::Result<()> {
    stream::list_stream(&mut rt.stdin(), &mut rt.stdout(), 0, 65536)?;
    Ok(())
}
