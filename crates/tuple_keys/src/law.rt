//! What holds of all texts of tuples.
ghost use Rattle.std.specs.Prelude.{◌≡◌, ℕ, List, ◌++◌, true, false, IsTrue};
ghost use Rattle.std.specs.declared.cmp.Ordering.TheVariants.{Less};
ghost use Rattle.names.specs.Names.{is_name};
ghost use Rattle.names.specs.Order.{tuple_cmp};
ghost use Rattle.names.specs.Spelling.{IsNode, IsObject, IsTuple};
ghost use Rattle.names.specs.declared.node.Node.{Node};
ghost use Rattle.names.specs.declared.object.Object.{Object};
ghost use Rattle.names.specs.declared.tuple.Tuple.{Tuple};
ghost use Rattle.tuple_keys.specs.Named.{is_in, is_at, is_of, is_within};
ghost use Rattle.tuple_keys.specs.Spelled.{spelled, spelled_objects, spelled_object, spelled_node, spelled_namespace, subject_in, tuple_of, IsSubjectSpelling, IsSpelling};
ghost use Rattle.tuple_keys.specs.Texts.{text_cmp, begins, IsStartOf};

/// Each tuple has a text, which spells it and no other.
pub fn each_tuple_has_a_text()
    ensures { (t : Tuple) → IsTuple t → IsSpelling (spelled t) × (tuple_of (spelled t) ≡ t) }
{}

/// The order of texts is the order of their tuples.
pub fn texts_are_ordered_as_tuples()
    ensures { (a b : List ℕ) → IsSpelling a → IsSpelling b → text_cmp a b ≡ tuple_cmp (tuple_of a) (tuple_of b) }
{}

/// The tuples whose objects are of a namespace are those whose texts begin with the namespace's.
pub fn the_texts_of_a_namespaces_objects_begin_with_it()
    ensures { (namespace : List ℕ) → IsTrue (is_name namespace) → IsStartOf (spelled_objects namespace) (is_in namespace) }
{}

/// The tuples of an object are those whose texts begin with the object's.
pub fn an_objects_texts_begin_with_its_text()
    ensures { (o : Object) → IsObject o → IsStartOf (spelled_object o) (is_at o) }
{}

/// The tuples of a node are those whose texts begin with the node's.
pub fn a_nodes_texts_begin_with_its_text()
    ensures { (n : Node) → IsNode n → IsStartOf (spelled_node n) (is_of n) }
{}

/// The tuples of a node whose subjects are of a namespace are those whose texts begin with the text of the
/// two.
pub fn a_namespaces_texts_begin_with_its_text()
    ensures { (n : Node) (namespace : List ℕ) → IsNode n → IsTrue (is_name namespace)
        → IsStartOf (spelled_namespace n namespace) (is_within n namespace) }
{}

/// What follows a node's text in a tuple's is the text of the subject.
pub fn a_subjects_text_follows_its_nodes()
    ensures { (n : Node) (text rest : List ℕ) → IsNode n → IsSpelling text → text ≡ spelled_node n ++ rest
        → IsSubjectSpelling rest × (subject_in rest ≡ (tuple_of text).subject) }
{}

/// No text that begins with another is below it.
pub fn texts_are_not_below_their_start()
    ensures { (start text : List ℕ) → begins start text ≡ true → text_cmp text start ≡ Less → ⊥ }
{}

/// The texts that begin with a text stand together: of those from it on, none follows one that does not
/// begin so.
pub fn texts_that_begin_alike_stand_together()
    ensures { (start text later : List ℕ) → (text_cmp text start ≡ Less → ⊥) → begins start text ≡ false
        → text_cmp text later ≡ Less → begins start later ≡ false }
{}
