// A whole log in one call, from a fresh station.
ghost use Rattle.std.specs.Prelude.{◌≡◌, min, length};
ghost use Rattle.laws.specs.Lists.{overwrite};
ghost use Rattle.bench.specs.Input.{transcript};

#[unsafe(no_mangle)]
pub extern "C" fn fortuna_log(log: &[u8], out: &mut [u8]) -> usize
    ensures { (result ≡ min (length (transcript log.now)) (length out.old)) × (out.new ≡ overwrite out.old (transcript log.now)) }
{
    bench::log::log(log, out)
}
