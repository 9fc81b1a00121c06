mod calls;
mod drawn;
mod plain;
