// What no clause says: that the calls which allocate succeed when there is memory.
mod places;
mod table;
