// Flags that are taken away.

ghost use Rattle.std.specs.Prelude.{◌≡◌, ◌<◌, All, vec_len};
ghost use Rattle.ancestor_lines.specs.Clearing.{cleared};

/// Takes the flags of these away.
pub(crate) fn clear(flags: &mut Vec<bool>, nodes: &[usize])
    requires { All (λ b. b < vec_len flags.old) nodes.now }
    ensures flags { flags.new.items ≡ cleared flags.old.items nodes.now }
    ensures count { vec_len flags.new ≡ vec_len flags.old }
{
    for node in nodes {
        flags[*node] = false;
    }
}
