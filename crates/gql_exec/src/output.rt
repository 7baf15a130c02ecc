//! What a response is made as.

use gql_ast_base::Name;
use jb_text::Memory;
use jb_tree::Value;

/// What a response is made as, a tree or a text. A list or an object is begun, is given its items or members in turn, and
/// is then ended, or dropped where a null passes on. Each call gives `Err` only when out of memory.
pub trait Output {
    ghost use Rattle.std.specs.Prelude.{◌≡◌, ◌++◌, ◌∷◌, [], ℕ, List, None, IfOk, OnOk};
    ghost use Rattle.std.specs.List.{position};
    ghost use Rattle.std.specs.Map.{keys_of};
    ghost use Rattle.std.specs.Str.{bytes_eq};
    ghost use Rattle.jb_tree.specs.declared.value.Value.{Value as Json};
    ghost use Rattle.jb_tree.specs.declared.value.Value.TheVariants as json;
    ghost use Rattle.gql_resolvers.specs.Execute.{Member};

    /// What stands for a value that is made.
    type Made: Drop;
    /// A list that is being made.
    type Items: Drop;
    /// An object that is being made.
    type Members: Drop;

    // What is made from the one state to the other is this value.
    ghost is_made: { Self → Self → Self.Made → Json → Type 0 };
    // What is being made since the first state is a list that has these items so far,
    ghost are_items: { Self → Self → Self.Items → List Json → Type 0 };
    // or an object that has these members so far,
    ghost are_members: { Self → Self → Self.Members → List Member → Type 0 };
    // to which a member with this key is to come.
    ghost is_keyed: { Self → Self → Self.Members → List Member → List ℕ → Type 0 };

    /// Makes a value.
    fn value(&mut self, value: Value) -> Result<Self::Made, Memory>
        ensures { IfOk result (λ made. is_made self.old self.new made value) };

    /// Begins a list, with room for so many items.
    fn begin_list(&mut self, room: usize) -> Result<Self::Items, Memory>
        ensures { IfOk result (λ items. are_items self.old self.new items []) };

    /// Adds the value that was made to the list.
    fn add_item(&mut self, items: &mut Self::Items, made: Self::Made) -> Result<(), Memory>
        ensures { OnOk result ((start before : Self) → (values : List Json) → (value : Json)
            → are_items start before items.old values → is_made before self.old made value
            → are_items start self.new items.new (values ++ value ∷ [])) };

    /// Ends the list.
    fn end_list(&mut self, items: Self::Items) -> Result<Self::Made, Memory>
        requires { (start : Self) × (values : List Json) × are_items start self.old items values }
        ensures { IfOk result (λ made. (start : Self) → (values : List Json) → are_items start self.old items values
            → is_made start self.new made (json.Array values)) };

    /// Drops the list: it was never begun.
    fn drop_list(&mut self, items: Self::Items)
        requires { (start : Self) × (values : List Json) × are_items start self.old items values }
        ensures { (start : Self) → (values : List Json) → are_items start self.old items values → self.new ≡ start };

    /// Begins an object, with room for so many members.
    fn begin_object(&mut self, room: usize) -> Result<Self::Members, Memory>
        ensures { IfOk result (λ members. are_members self.old self.new members []) };

    /// Begins a member of this key.
    fn begin_member(&mut self, members: &mut Self::Members, key: &Name) -> Result<(), Memory>
        ensures { OnOk result ((start : Self) → (so_far : List Member) → are_members start self.old members.old so_far
            → is_keyed start self.new members.new so_far key.now.text) };

    /// Ends that member, whose key is new to the object: its value is the one that was made.
    fn add_member(
        &mut self,
        members: &mut Self::Members,
        key: &Name,
        made: Self::Made,
    ) -> Result<(), Memory>
        requires { (start before : Self) × (so_far : List Member) × is_keyed start before members.old so_far key.now.text
            × (position (bytes_eq key.now.text) (keys_of so_far) ≡ None) }
        ensures { OnOk result ((start before : Self) → (so_far : List Member) → (value : Json)
            → is_keyed start before members.old so_far key.now.text → is_made before self.old made value
            → are_members start self.new members.new (so_far ++ (key.now.text, value) ∷ [])) };

    /// Drops that member: it was never begun.
    fn drop_member(&mut self, members: &Self::Members)
        requires { (start : Self) × (so_far : List Member) × (key : List ℕ) × is_keyed start self.old members.now so_far key }
        ensures { (start : Self) → (so_far : List Member) → (key : List ℕ) → is_keyed start self.old members.now so_far key
            → are_members start self.new members.now so_far };

    /// Ends the object.
    fn end_object(&mut self, members: Self::Members) -> Result<Self::Made, Memory>
        requires { (start : Self) × (all : List Member) × are_members start self.old members all }
        ensures { IfOk result (λ made. (start : Self) → (all : List Member) → are_members start self.old members all
            → is_made start self.new made (json.Object all)) };

    /// Drops the object, and the member that was begun last: it was never begun.
    fn drop_object(&mut self, members: Self::Members)
        requires { (start : Self) × (so_far : List Member) × (key : List ℕ) × is_keyed start self.old members so_far key }
        ensures { (start : Self) → (so_far : List Member) → (key : List ℕ) → is_keyed start self.old members so_far key
            → self.new ≡ start };
}
