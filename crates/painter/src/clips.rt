// The painter's clip before and after a layer.
ghost use Rattle.std.specs.Prelude.{◌≡◌, ◌≤◌};
ghost use Rattle.pass_statements.specs.Rules.{last_reached};
ghost use Rattle.painter.specs.Clip.{alive_at, kept_or, clip_after, lacks_clip};

use styling::Func;

// A clip that ended below the painted layer is dropped.
pub fn alive_at(clip: Option<u32>, id: u32) -> Option<u32>
    ensures { result ≡ alive_at clip id }
{
    let last = clip?;
    if last < id { None } else { Some(last) }
}

// A living clip keeps its end; else one begins that lives up to `last`.
fn kept_or(alive: Option<u32>, last: u32) -> Option<u32>
    ensures { result ≡ kept_or alive last }
{
    Some(alive.unwrap_or(last))
}

// The clip after a layer is painted.
pub fn clip_after(func: Func, id: u32, clip: Option<u32>) -> Option<u32>
    requires { last_reached id func ≤ 4294967295 }
    ensures { result ≡ clip_after func id clip }
{
    let alive = alive_at(clip, id);
    match func {
        Func::Draw(_) => alive,
        Func::Clip(span) => kept_or(alive, id + span),
    }
}

// Whether a clip is needed and none is alive.
pub fn lacks_clip(needs: bool, alive: Option<u32>) -> bool
    ensures { result ≡ lacks_clip needs alive }
{
    needs & alive.is_none()
}
