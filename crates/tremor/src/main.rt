// The example of the README: 48 bytes drawn from a seed with the generator alone.
#![tactic(auto)]

use std::io;

fn main(rt: HostRuntime) -> io::Result<()> {
    let seeded = generator::Generator::new().reseed(b"synthetic tremor, run 17");
    let mut bytes = [0u8; 48];
    let drawn = seeded.next.pseudo_random_data(&mut bytes);
    if drawn.answer.is_ok() {
        rt.write_all(&bytes)?;
    }
    Ok(())
}
