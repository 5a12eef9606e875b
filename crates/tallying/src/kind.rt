// The kinds of lines in the file of recorded answers, each by the number that its lines begin with.
ghost use Rattle.std.specs.Prelude.{◌≡◌};
ghost use Rattle.tallying.specs.Kind.{number_of, Numbered};

// A table that preparing wrote.
#[derive(Clone, Copy, Debug, PartialEq, Eq)]
pub enum Table {
    Order = 2,
    Positions,
    NodeStarts,
    LinesOfNodes,
    LineStarts,
    NodesOfLines,
}

impl Table {
    // Its name in the tally.
    fn name(self) -> &'static str {
        match self {
            Table::Order => "orders",
            Table::Positions => "positions",
            Table::NodeStarts => "node starts",
            Table::LinesOfNodes => "lines of nodes",
            Table::LineStarts => "line starts",
            Table::NodesOfLines => "nodes of lines",
        }
    }
}

// A question about the last map.
#[derive(Clone, Copy, Debug, PartialEq, Eq)]
pub enum Question {
    LineCheck = 8,
    OrderCheck,
    RecordCheck,
    Intervals,
    Extension,
    Nodes,
    PortLines,
    LinePorts,
    OrderPorts,
}

impl Question {
    // Its name in the tally.
    fn name(self) -> &'static str {
        match self {
            Question::LineCheck => "line checks",
            Question::OrderCheck => "order checks",
            Question::RecordCheck => "checks by records",
            Question::Intervals => "intervals",
            Question::Extension => "extensions",
            Question::Nodes => "nodes in records",
            Question::PortLines => "lines at a port",
            Question::LinePorts => "line checks with ports",
            Question::OrderPorts => "order checks with ports",
        }
    }
}

// What a line says: a map, a table that preparing wrote of it, or a question that was asked about it.
#[derive(Clone, Copy, Debug, PartialEq, Eq)]
pub enum Kind {
    Map,
    Written(Table),
    Asked(Question),
}

impl Kind {
    // The kind with a number, if there is one.
    pub fn numbered(number: usize) -> Option<Kind>
        ensures { Numbered result number }
    {
        Some(match number {
            1 => Kind::Map,
            2 => Kind::Written(Table::Order),
            3 => Kind::Written(Table::Positions),
            4 => Kind::Written(Table::NodeStarts),
            5 => Kind::Written(Table::LinesOfNodes),
            6 => Kind::Written(Table::LineStarts),
            7 => Kind::Written(Table::NodesOfLines),
            8 => Kind::Asked(Question::LineCheck),
            9 => Kind::Asked(Question::OrderCheck),
            10 => Kind::Asked(Question::RecordCheck),
            11 => Kind::Asked(Question::Intervals),
            12 => Kind::Asked(Question::Extension),
            13 => Kind::Asked(Question::Nodes),
            14 => Kind::Asked(Question::PortLines),
            15 => Kind::Asked(Question::LinePorts),
            16 => Kind::Asked(Question::OrderPorts),
            _ => return None,
        })
    }

    // Its number.
    pub fn number(self) -> usize
        ensures { result ≡ number_of self }
    {
        match self {
            Kind::Map => 1,
            Kind::Written(table) => table as usize,
            Kind::Asked(question) => question as usize,
        }
    }

    // Its name in the tally.
    pub(crate) fn name(self) -> &'static str {
        match self {
            Kind::Map => "maps",
            Kind::Written(table) => table.name(),
            Kind::Asked(question) => question.name(),
        }
    }
}
