// Laws of the words with which a site is made.
ghost use Rattle.std.specs.Prelude.{◌≡◌, ◌≤◌, ℕ, List, Some};
ghost use Rattle.qm_history.specs.Common.{AreNodes, site_of};
ghost use Rattle.qm_script.specs.Sites.{cap_of, nodes_of};

/// The nodes that a word names are those that a site can have.
pub fn named_nodes_make_a_site()
    ensures { (word : List ℕ) (names : List (List ℕ)) → nodes_of word ≡ Some names
        → AreNodes (site_of names).nodes }
{}

/// The number of bytes that a word gives a queue file is one that a queue file may have.
pub fn caps_have_limits()
    ensures least { (word : List ℕ) (cap : ℕ) → cap_of word ≡ Some cap → 4096 ≤ cap }
    ensures most { (word : List ℕ) (cap : ℕ) → cap_of word ≡ Some cap → cap ≤ 268435456 }
{}
