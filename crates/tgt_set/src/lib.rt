// Fresh nodes of a tag tree, and the value of a leaf set on the way to the root (tgt.rs).
#![tactic(auto)]

ghost use Rattle.std.specs.Prelude.{◌≡◌, ◌+◌, ◌*◌, ◌≤◌, length};
ghost use Rattle.std.proofs.lemmas.List.Edits.{sets};
ghost use Rattle.t800.specs.TagTree.{set_value};
ghost use Rattle.t800.specs.Start.{fresh_nodes};
ghost use Rattle.tgt.specs.Path.{path_over, PathIn};

// So many nodes from the word `from` on: a value that says "not yet", low 0, known 0.
pub fn opj_tgt_reset(words: &mut [u32], from: usize, nodes: usize, fresh: u32)
    requires { from + 3 * nodes ≤ length words.old }
    ensures { words.new ≡ sets words.old from (fresh_nodes fresh nodes) }
{
    for i in 0..nodes {
        let at = from + 3 * i;
        words[at] = fresh;
        words[at + 1] = 0;
        words[at + 2] = 0;
    }
}

// A tree of `depth` levels begins at the word `base`, and its leaf is in column x of the row that `row` was made for.
pub fn opj_tgt_setvalue(
    words: &mut [u32],
    base: usize,
    row: &[usize; 7],
    depth: usize,
    x: usize,
    value: u32,
)
    requires { PathIn (length words.old) base row.now depth x }
    ensures { words.new ≡ set_value base (path_over row.now depth x) value words.old }
{
    for i in 0..depth {
        let at = tgt::first_word(base, row[i], x, i);
        if words[at] <= value {
            return;
        }
        words[at] = value;
    }
}
