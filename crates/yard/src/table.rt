ghost use Rattle.yard.specs.Table.{Table};

// A theorem: its contract is the statement. The pages of the yard are those of the table.
pub fn yard_stands()
    ensures { Table }
{}
